//! What a claimed job is answered.
use crate::shared::Shared;
use em_base::NoMemory;
use em_run::Spec;
use em_tree::{Answer, Question};
use em_view::View;
use std::alloc::Global;
use std::sync::Wait;

/// The answers of a shared board to one claimed job. Other jobs post and settle meanwhile, so it
/// tells none of them beforehand.
#[derive(Drop)]
pub struct SharedView<'a, R: Wait, S: Spec> {
    rt: &'a R,
    shared: &'a Shared<S>,
    job: u32,
}

impl<'a, R: Wait, S: Spec> SharedView<'a, R, S> {
    /// A view for the job. It takes no memory.
    pub fn new(rt: &'a R, shared: &'a Shared<S>, job: u32) -> SharedView<'a, R, S> {
        SharedView { rt, shared, job }
    }
}

impl<'a, R: Wait, S: Spec> View for SharedView<'a, R, S> {
    ghost use Rattle.std.specs.Prelude.{None};

    ghost tells = { λ v i q. None };

    fn ask(&mut self, alloc: Global, q: &Question) -> Result<Answer, NoMemory> {
        self.shared.ask(self.rt, alloc, self.job, q)
    }
}
