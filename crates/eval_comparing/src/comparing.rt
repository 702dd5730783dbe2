ghost use Rattle.std.specs.Prelude.{◌≡◌, ◌||◌, ◌&&◌, ◌∷◌, [], Bool, Err, IfOk, Some, false, not, true};
ghost use Rattle.rp_base.specs.declared.exceptions.Beyond.TheVariants as beyond;
ghost use Rattle.rp_base.specs.declared.plain.Plain.TheVariants as plain;
ghost use Rattle.rp_base.specs.declared.value.Value.TheVariants as value;
ghost use Rattle.side_trees.specs.Trees.{bind};
ghost use Rattle.language_rules.specs.AtOnce.{Computes};
ghost use Rattle.language_rules.specs.Chains.{is_none_value, link_rule, opposite};
ghost use Rattle.language_rules.specs.Codes.{Leaves, Step};
ghost use Rattle.language_rules.specs.Comparing.{compare_step, tuple_items};
ghost use Rattle.language_rules.specs.Going.{RuleTree, boolean, carry, fails, on_value, raised};
ghost use Rattle.language_rules.specs.Kinds.{is_reference};
ghost use Rattle.language_rules.specs.PlainItems.{contains_within, tuple_contains};
ghost use Rattle.language_rules.specs.Searching.{search_tuple_step};
ghost use Rattle.language_rules.specs.Truth.{and_bool, tells};
ghost use Rattle.value_operators.specs.Answering.{is_plain};
ghost use Rattle.eval_comparing.specs.Answers.{Answers};
ghost use Rattle.eval_comparing.specs.Compared.{Compares, asks_link, orders, turned_by};

use crate::answer::{Answer, Compared};
use crate::found::{equal_values, search_items};
use crate::meeting::items_of;
use py_ast::Comparison;
use rp_base::{Beyond, CmpOp, ExcKind, NoMemory, OpEnd, Plain, Raised, Text, Value};
use sqlite_items::Items;
use std::alloc::Global;

// ---- comparisons

/// A comparison of two values that refer to no object, and are not both plain (Python Language Reference,
/// "Comparisons").
pub(crate) fn compare_values(
    alloc: Global,
    op: CmpOp,
    left: &Value,
    right: &Value,
) -> Result<Compared, NoMemory>
    requires apart { (is_reference left.now || is_reference right.now) ≡ false }
    requires other { (is_plain left.now && is_plain right.now) ≡ false }
    ensures { IfOk result (λ c. Compares (carry (compare_step op left.now right.now)) c) }
{
    match op {
        CmpOp::Eq => Ok(told(equal_values(alloc, left, right)?)),
        CmpOp::Ne => Ok(told_opposite(equal_values(alloc, left, right)?)),
        CmpOp::Lt => order_values(alloc, left, right),
        CmpOp::Le => order_values(alloc, left, right),
        CmpOp::Gt => order_values(alloc, left, right),
        CmpOp::Ge => order_values(alloc, left, right),
    }
}

fn told(answer: Answer) -> Compared
    ensures { (t : Step) → Answers t answer → Compares (carry t) result }
{
    match answer {
        Answer::Told(holds) => Compared::Ended(Ok(boolean(holds))),
        Answer::Uneven => Compared::Ended(Err(OpEnd::Beyond(Beyond::Compare))),
        Answer::Asked(question) => Compared::Asked(question),
    }
}

fn told_opposite(answer: Answer) -> Compared
    ensures unequal { (t : Step) → Answers t answer → Compares (carry (and_bool t (λ e. tells (not e)))) result }
    ensures absent { (t : Step) → Answers t answer → Compares (bind (carry t) (on_value opposite)) result }
{
    match answer {
        Answer::Told(holds) => Compared::Ended(Ok(boolean(!holds))),
        Answer::Uneven => Compared::Ended(Err(OpEnd::Beyond(Beyond::Compare))),
        Answer::Asked(question) => Compared::Opposite(question),
    }
}

fn boolean(holds: bool) -> Value
    ensures { result ≡ boolean holds }
{
    Value::Plain(Plain::Bool(holds))
}

/// An order of two values, of which one is a tuple that holds an object.
fn order_values(alloc: Global, left: &Value, right: &Value) -> Result<Compared, NoMemory>
    ensures { IfOk result (λ c. Compares (carry (orders (tuple_items left.now) (tuple_items right.now))) c) }
{
    match items_of(alloc, left)? {
        Some(items) => order_tuple(alloc, items, right),
        None => Ok(Compared::Ended(Err(fails(alloc, ExcKind::TypeError, "no order")))),
    }
}

fn order_tuple(alloc: Global, left: Items<Value>, right: &Value) -> Result<Compared, NoMemory>
    ensures { IfOk result (λ c. Compares (carry (orders (Some left) (tuple_items right.now))) c) }
{
    match items_of(alloc, right)? {
        Some(items) => Ok(Compared::Ended(Err(order_of_lengths(left.len() == items.len())))),
        None => Ok(Compared::Ended(Err(fails(alloc, ExcKind::TypeError, "no order")))),
    }
}

fn order_of_lengths(even: bool) -> OpEnd
    ensures { Computes (carry (elim even [ true ↦ Leaves beyond.Order | false ↦ Leaves beyond.Compare ])) (Err result) }
{
    if even {
        OpEnd::Beyond(Beyond::Order)
    } else {
        OpEnd::Beyond(Beyond::Compare)
    }
}

/// An exception of this kind that has this text.
fn fails(alloc: Global, kind: ExcKind, text: &str) -> OpEnd
    ensures { Computes (fails kind text.now) (Err result) }
{
    match raised(alloc, kind, text) {
        Ok(raised) => OpEnd::Raise(raised),
        Err(_) => OpEnd::NoMemory,
    }
}

fn raised(alloc: Global, kind: ExcKind, text: &str) -> Result<Raised, NoMemory>
    ensures { IfOk result (λ r. r ≡ raised kind (plain.Text text.now ∷ [])) }
{
    let mut args = Items::new(alloc);
    args.push(Plain::Text(Text::from_str(alloc, text)?))?;
    Ok(Raised { kind, args })
}

// ---- membership

/// `in`, or where it is turned `not in`, of a container that is no object, where container and part are not both plain
/// (Python Language Reference, "Membership test operations").
fn find(alloc: Global, container: &Value, part: &Value, turned: bool) -> Result<Compared, NoMemory>
    requires { (is_plain part.now && is_plain container.now) ≡ false }
    ensures { IfOk result (λ c. Compares (turned_by turned (contains_within container.now part.now)) c) }
{
    match container {
        Value::Plain(plain) => find_in_plain(alloc, plain, container, part, turned),
        _ => find_in_tuple(alloc, container, part, turned),
    }
}

fn find_in_plain(
    alloc: Global,
    plain: &Plain,
    container: &Value,
    part: &Value,
    turned: bool,
) -> Result<Compared, NoMemory>
    requires plain { container.now ≡ value.Plain plain.now }
    requires other { is_plain part.now ≡ false }
    ensures { IfOk result (λ c. Compares (turned_by turned (contains_within container.now part.now)) c) }
{
    match plain {
        Plain::Text(_) => Ok(ended(fails(alloc, ExcKind::TypeError, "text expected"))),
        Plain::Bytes(_) => Ok(ended(OpEnd::Beyond(Beyond::Compare))),
        _ => find_in_tuple(alloc, container, part, turned),
    }
}

/// An end that is no value is handed on.
fn ended(end: OpEnd) -> Compared
    ensures { (t : RuleTree) (turned : Bool) → Computes t (Err end) → Compares (turned_by turned t) result }
{
    Compared::Ended(Err(end))
}

fn find_in_tuple(
    alloc: Global,
    container: &Value,
    part: &Value,
    turned: bool,
) -> Result<Compared, NoMemory>
    ensures { IfOk result (λ c. Compares (turned_by turned (tuple_contains part.now (tuple_items container.now))) c) }
{
    match items_of(alloc, container)? {
        Some(items) => find_among(alloc, items, part, turned),
        None => Ok(ended(fails(alloc, ExcKind::TypeError, "not iterable"))),
    }
}

fn find_among(
    alloc: Global,
    items: Items<Value>,
    part: &Value,
    turned: bool,
) -> Result<Compared, NoMemory>
    ensures { IfOk result (λ c. Compares (turned_by turned (carry (search_tuple_step items part.now))) c) }
{
    let answer = search_items(alloc, part.copy(alloc)?, items)?;
    Ok(told_by(answer, turned))
}

fn told_by(answer: Answer, turned: bool) -> Compared
    ensures { (t : Step) → Answers t answer → Compares (turned_by turned (carry t)) result }
{
    if turned {
        told_opposite(answer)
    } else {
        told(answer)
    }
}

// ---- links

/// A link of a chain that asks neither operand at once, and whose operands are not both plain (Python Language Reference,
/// "Comparisons").
pub fn link_values(
    alloc: Global,
    comparison: Comparison,
    left: &Value,
    right: &Value,
) -> Result<Compared, NoMemory>
    requires apart { asks_link comparison left.now right.now ≡ false }
    requires other { (is_plain left.now && is_plain right.now) ≡ false }
    ensures { IfOk result (λ c. Compares (link_rule comparison left.now right.now) c) }
{
    match comparison {
        Comparison::Order(op) => compare_values(alloc, op, left, right),
        Comparison::In => find(alloc, right, left, false),
        Comparison::NotIn => find(alloc, right, left, true),
        Comparison::Is => Ok(Compared::Ended(Ok(boolean(is_none(left))))),
        Comparison::IsNot => Ok(Compared::Ended(Ok(boolean(!is_none(left))))),
    }
}

fn is_none(value: &Value) -> bool
    ensures { result ≡ is_none_value value.now }
{
    matches!(value, Value::Plain(Plain::None))
}
