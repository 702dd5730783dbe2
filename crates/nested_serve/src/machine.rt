use eval_frames::Frame;
use object_operations::{Completion, Handling, MadeClass};
use py_ast::Program;
use py_store::Store;
use rp_base::Beyond;
use sqlite_items::Items;

/// A side that runs scripts: its cells, its texts, what waits, the exceptions that are being handled and the lists and
/// dicts whose texts are under way, the innermost last, the classes that class statements made, the newest last, and what
/// it printed.
#[derive(Drop)]
pub struct Machine {
    pub store: Store,
    pub texts: Vec<Program>,
    pub stack: Vec<Frame>,
    pub handled: Items<Handling>,
    pub printing: Items<u32>,
    pub classes: Items<MadeClass>,
    pub printed: String,
}

/// How far a side got by itself.
#[derive(Drop)]
pub enum Halt {
    Done(Completion),
    OutOfFuel,
    Beyond(Beyond),
}
