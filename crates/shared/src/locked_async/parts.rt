// A stream with its lock and its handles, before anything is said of how these stand together. Relies on `lock` and `table`.
use super::lock::Lock;
use super::table::Table;

// Its clauses say `parts_view S.view`, and it has no `impl Model`, whose value cannot name the bound's view.
#[derive(Drop)]
pub struct Parts<S> {
    pub(crate) stream: S,
    pub(crate) lock: Lock,
    pub(crate) table: Table,
}

pub mod operations;
pub mod polls;
