//! Who is told of each ask before it is made.
ghost use Rattle.std.specs.Prelude.{◌≡◌};

use em_base::NoMemory;
use em_tree::{Answer, Question};
use em_view::View;
use std::alloc::Global;

/// Told of every ask of every run before it is made; it may wait.
pub trait Gate: Drop {
    /// `worker` is the thread's number, 0 for the committer. `step` is the number of earlier asks
    /// of this run, at most 2^32 - 1.
    fn before(&self, worker: u32, job: u32, step: u32);
}

/// Does nothing.
#[derive(Drop)]
pub struct OpenGate;

impl Gate for OpenGate {
    fn before(&self, _worker: u32, _job: u32, _step: u32) {}
}

/// A view whose asks a gate is told of.
#[derive(Drop)]
pub(crate) struct GatedView<'a, V: View, G: Gate> {
    view: V,
    gate: &'a G,
    worker: u32,
    job: u32,
    step: u32,
}

impl<'a, V: View, G: Gate> GatedView<'a, V, G> {
    /// Before the first ask of a run.
    pub(crate) fn new(view: V, gate: &'a G, worker: u32, job: u32) -> GatedView<'a, V, G>
        ensures { result.view ≡ view }
    {
        GatedView {
            view,
            gate,
            worker,
            job,
            step: 0,
        }
    }
}

impl<'a, V: View, G: Gate> View for GatedView<'a, V, G> {
    ghost tells = { λ v. V.tells v.view };

    fn ask(&mut self, alloc: Global, q: &Question) -> Result<Answer, NoMemory> {
        self.gate.before(self.worker, self.job, self.step);
        self.step = self.step.saturating_add(1);
        self.view.ask(alloc, q)
    }
}
