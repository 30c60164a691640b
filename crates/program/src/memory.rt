// Memory for one program.
pub(crate) mod loading;

use super::fault::LoadFault;
use reader::table::Table;
use typing::checker::Checker;

// All that a program takes, however it goes from stage to stage.
#[derive(Drop)]
pub struct Memory {
    pub(super) table: Table,
    pub(super) checker: Checker,
}

// A program that is refused gives its memory back.
#[derive(Drop)]
pub struct Rejected {
    pub fault: LoadFault,
    pub memory: Memory,
}
