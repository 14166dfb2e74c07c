//! Tests.
mod boards;
mod fronts;
mod marks;
