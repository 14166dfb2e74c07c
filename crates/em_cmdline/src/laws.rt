//! Laws of the definitions: each function's contract is the law, and its body is empty.
ghost use Rattle.std.specs.Prelude.{◌≡◌, map, Ok, Err};
ghost use Rattle.em_cmdline.specs.Worked.{ordering, reading, refused, sub_ordering, sub_reading, sub_refused, words_in};
ghost use Rattle.em_cmdline.specs.Pages.{listed, option_words, usage};

/// The definition, with clap's own words, says of worked lines what it is to say.
pub fn law_worked()
    ensures orders { map (λ l. reading (words_in l.0)) ordering ≡ map (λ l. Ok l.1) ordering }
    ensures refusals { map (λ l. reading (words_in l.0)) refused ≡ map (λ l. Err l.1) refused }
{}

/// The page of usage lists each option of the command, in the order of its table, and no other.
pub fn law_usage()
    ensures { listed usage ≡ option_words }
{}

/// The same for the words of sub-makes.
pub fn law_sub_worked()
    ensures orders { map (λ l. sub_reading (words_in l.0)) sub_ordering
        ≡ map (λ l. Ok l.1) sub_ordering }
    ensures refusals { map (λ l. sub_reading (words_in l.0)) sub_refused
        ≡ map (λ l. Err l.1) sub_refused }
{}
