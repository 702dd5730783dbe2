use object_operations::Env;
use py_store::Binding;
use rp_base::Text;
use sqlite_items::Items;

/// What waits for the end of a statement of a class body: the attributes so far, and the numbers of the statements behind
/// it, the last first.
#[derive(Drop)]
pub struct ClassFrame {
    pub env: Env,
    pub name: Text,
    pub base: Option<u32>,
    pub attributes: Items<Binding>,
    pub member: u32,
    pub waiting: Items<u32>,
}
