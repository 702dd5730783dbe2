ghost use Rattle.std.specs.Prelude.{◌≡◌, ◌≤◌, ◌∷◌, ◌++◌, ℕ, List, Bool, true, false, IsTrue, ℤ, Some, Ok, max, map, encode_utf8_all};
ghost use Rattle.std.specs.Cmp.Lexicographic.{slice_cmp};
ghost use Rattle.std.specs.Ordering.{is_eq, nat_cmp};
ghost use Rattle.std.specs.Str.{all_scalars};
ghost use Rattle.std.specs.Fmt.{signed_decimal};
ghost use Rattle.rp_base.specs.PlainValues.{equal_to, equal_items, plain_weight, plain_depth};
ghost use Rattle.rp_base.specs.Values.{heaviest_value};
ghost use Rattle.py_strs.specs.Quoting.{text_repr, bytes_repr};
ghost use Rattle.py_plain.specs.Arithmetic.{binary};
ghost use Rattle.py_plain.specs.Comparing.{order_of};
ghost use Rattle.py_plain.specs.Printing.{repr_of, str_of, tuple_repr};

use rp_base::{BinaryOp, Plain};
use std::cmp::Ordering;

/// Where two values have an order, they stand as equal exactly where Python's `==` holds of them. So exactly one of `<`,
/// `==` and `>` holds then.
pub fn order_agrees_with_equality()
    ensures { (a b : Plain) (o : Ordering) → order_of a b ≡ Some o → equal_to a b ≡ is_eq o }
{}

/// Two tuples stand as their first unequal pair does, which may have no order; and where one of them ends before such a
/// pair, it is the less.
pub fn tuples_stand_as_their_first_unequal_pair()
    ensures pair { (us vs xs ys : List Plain) (x y : Plain) → IsTrue (equal_items us vs) → equal_to x y ≡ false → order_of (Plain.Tuple (us ++ x ∷ xs)) (Plain.Tuple (vs ++ y ∷ ys)) ≡ order_of x y }
    ensures none { (us vs : List Plain) → IsTrue (equal_items us vs) → order_of (Plain.Tuple us) (Plain.Tuple vs) ≡ Some Ordering.Equal }
    ensures shorter { (us vs ys : List Plain) (y : Plain) → IsTrue (equal_items us vs) → order_of (Plain.Tuple us) (Plain.Tuple (vs ++ y ∷ ys)) ≡ Some Ordering.Less }
    ensures longer { (us vs xs : List Plain) (x : Plain) → IsTrue (equal_items us vs) → order_of (Plain.Tuple (us ++ x ∷ xs)) (Plain.Tuple vs) ≡ Some Ordering.Greater }
{}

/// Texts stand as their code points do, and not only as their UTF-8 bytes.
pub fn texts_stand_as_their_code_points()
    ensures { (cs ds : List ℕ) → IsTrue (all_scalars cs) → IsTrue (all_scalars ds) → order_of (Plain.Text (encode_utf8_all cs)) (Plain.Text (encode_utf8_all ds)) ≡ Some (slice_cmp nat_cmp cs ds) }
{}

/// What an operator gives is never too heavy, and no deeper than its deeper operand.
pub fn results_keep_the_limits()
    ensures weight { (op : BinaryOp) (a b v : Plain) → binary op a b ≡ Ok v → plain_weight v ≤ heaviest_value }
    ensures depth { (op : BinaryOp) (a b v : Plain) → binary op a b ≡ Ok v → plain_depth v ≤ max (plain_depth a) (plain_depth b) }
{}

/// A text's str is the text, and its repr that of `py_strs`; so is a byte string's. A tuple prints the reprs of its items.
pub fn values_print_as_their_kinds()
    ensures text { (t : List ℕ) → str_of (Plain.Text t) ≡ t }
    ensures quoted { (t : List ℕ) → repr_of (Plain.Text t) ≡ text_repr t }
    ensures bytes { (b : List ℕ) → repr_of (Plain.Bytes b) ≡ bytes_repr b }
    ensures int { (n : ℤ) → repr_of (Plain.Int n) ≡ signed_decimal n }
    ensures tuple { (xs : List Plain) → repr_of (Plain.Tuple xs) ≡ tuple_repr (map repr_of xs) }
    ensures item_itself { (xs : List Plain) → str_of (Plain.Tuple xs) ≡ repr_of (Plain.Tuple xs) }
{}
