ghost use Rattle.std.specs.Prelude.{◌≡◌, IfOk, reverse};
ghost use Rattle.eval_frames.specs.Meaning.{IsLight, enters_over, meant};

use crate::frame::Frame;
use crate::next::Next;
use object_operations::Env;
use rp_base::NoMemory;

/// The node of this number begins, and its end goes to this frame.
pub fn enter_over(
    stack: &mut Vec<Frame>,
    frame: Frame,
    env: Env,
    number: u32,
) -> Result<Next, NoMemory>
    ensures means { IfOk result (λ next. meant stack.new.items next ≡ enters_over env number frame stack.old.items) }
    ensures light { IfOk result (λ next. IsLight stack.new.items next stack.old.items) }
{
    stack.push(frame)?;
    Ok(Next::Enter(env, number))
}
