//! A word that is being read: its pieces so far, and how many arguments are open in them.
ghost use Rattle.std.specs.Prelude.{◌≡◌, ◌==◌, not, ◌+◌, ◌<◌, ◌++◌, [], ◌∷◌, map, Some, OnOk};
ghost use Rattle.em_gram.specs.Nesting.{piece_pattern, piece_nesting, nest_parts, nest_depth, IsCounted};
ghost use Rattle.em_syntax.specs.Nesting.{Stays, Opens, Closes, open_after};
ghost use Rattle.em_token.specs.Shell.{key};
ghost use Rattle.em_token.specs.declared.kind.Kind.TheVariants as Kind;

use em_base::NoMemory;
use em_syntax::{WordPiece, WordWhat};
use std::alloc::Global;

/// The pieces that were read, and how many arguments are open behind them.
#[derive(Drop)]
pub struct Nest {
    pub open_arguments: usize,
    pub pieces: Vec<WordPiece>,
}

impl Nest {
    /// Nothing yet.
    pub fn new(alloc: Global) -> Nest
        ensures parts { nest_parts result ≡ [] }
        ensures depth { nest_depth result ≡ 0 }
        ensures counted { IsCounted result }
    {
        Nest {
            open_arguments: 0,
            pieces: Vec::new(alloc),
        }
    }

    /// Whether an argument is open.
    pub fn is_open(&self) -> bool
        ensures { result ≡ not (nest_depth self.now == 0) }
    {
        self.open_arguments != 0
    }

    /// Adds a piece.
    pub fn add(&mut self, piece: WordPiece) -> Result<(), NoMemory>
        requires stays { piece_nesting piece ≡ Stays }
        requires counted { IsCounted self.old }
        ensures parts { OnOk result
            (nest_parts self.new ≡ nest_parts self.old ++ piece_pattern piece ∷ []) }
        ensures depth { OnOk result (nest_depth self.new ≡ nest_depth self.old) }
        ensures counted { OnOk result (IsCounted self.new) }
    {
        self.pieces.push(piece)?;
        Ok(())
    }

    /// Begins an argument.
    pub fn enter(&mut self, begin: WordPiece) -> Result<(), NoMemory>
        requires opens { piece_nesting begin ≡ Opens }
        requires counted { IsCounted self.old }
        ensures parts { OnOk result
            (nest_parts self.new ≡ nest_parts self.old ++ piece_pattern begin ∷ []) }
        ensures depth { OnOk result (nest_depth self.new ≡ nest_depth self.old + 1) }
        ensures counted { OnOk result (IsCounted self.new) }
    {
        self.open_arguments = self.open_arguments.checked_add(1).ok_or(NoMemory)?;
        self.pieces.push(begin)?;
        Ok(())
    }

    /// Ends the innermost argument.
    pub fn leave(&mut self) -> Result<(), NoMemory>
        requires some { 0 < nest_depth self.old }
        requires counted { IsCounted self.old }
        ensures parts { OnOk result
            (nest_parts self.new ≡ nest_parts self.old ++ key Kind.ArgumentEnd ∷ []) }
        ensures depth { OnOk result (nest_depth self.new + 1 ≡ nest_depth self.old) }
        ensures counted { OnOk result (IsCounted self.new) }
    {
        self.open_arguments -= 1;
        self.pieces.push(end_piece())?;
        Ok(())
    }

    /// The pieces, where no argument is open.
    pub fn into_pieces(self) -> Vec<WordPiece>
        requires none { nest_depth self ≡ 0 }
        requires counted { IsCounted self }
        ensures parts { map piece_pattern result.items ≡ nest_parts self }
        ensures closed { open_after 0 (map piece_nesting result.items) ≡ Some 0 }
    {
        let Nest {
            open_arguments: _,
            pieces,
        } = self;
        pieces
    }
}

/// The end of an argument.
fn end_piece() -> WordPiece
    ensures pattern { piece_pattern result ≡ key Kind.ArgumentEnd }
    ensures nesting { piece_nesting result ≡ Closes }
{
    WordPiece {
        quoted: false,
        what: WordWhat::End,
    }
}
