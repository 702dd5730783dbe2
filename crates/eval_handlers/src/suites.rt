ghost use Rattle.std.specs.Prelude.{◌≡◌, ◌∷◌, ◌+◌, ◌*◌, IfOk, length, reverse};
ghost use Rattle.eval_frames.specs.Meaning.{Means, load};
ghost use Rattle.language_rules.specs.Going.{executes_all};

use eval_frames::{Frame, Next, StatementFrame};
use object_operations::Env;
use rp_base::NoMemory;
use sqlite_items::Items;

/// The statements of a suite: this one, and those that wait, the next one at the end.
pub(crate) fn enter_suite(
    stack: &mut Vec<Frame>,
    env: Env,
    number: u32,
    waiting: Items<u32>,
) -> Result<Next, NoMemory>
    ensures means { IfOk result (λ next. Means stack.new.items next (executes_all env (number ∷ reverse waiting)) stack.old.items) }
    ensures load { IfOk result (λ next. load stack.new.items next ≡ 3 * length stack.old.items + 3) }
{
    stack.push(Frame::Statement(StatementFrame::Suite { env, waiting }))?;
    Ok(Next::Enter(env, number))
}
