ghost use Rattle.std.specs.Prelude.{◌≡◌, ◌≢◌, ◌+◌, ◌-◌, ◌%◌, min, max, ℕ, ℤ, pos, ◌+ℤ◌, ◌*ℤ◌, IsTrue};
ghost use Rattle.std.specs.Int.{w128, int_bit_and, int_bit_or, int_bit_xor, int_pow};
ghost use Rattle.py_ints.specs.IntTexts.{fits};
ghost use Rattle.py_ints.specs.Arithmetic.{floor_div, floor_mod, IsRemainderOf, int_bit, complement};

/// Quotient times divisor plus remainder is the dividend, and the remainder is from 0 to the divisor, which is left out: it
/// has the divisor's sign.
pub fn division_leaves_the_remainder()
    ensures dividend { (a b : ℤ) → b ≢ pos 0 → floor_div a b *ℤ b +ℤ floor_mod a b ≡ a }
    ensures remainder { (a b : ℤ) → b ≢ pos 0 → IsRemainderOf b (floor_mod a b) }
{}

/// No other two numbers are so related to dividend and divisor.
pub fn division_has_one_answer()
    ensures { (a b q r : ℤ) → q *ℤ b +ℤ r ≡ a → IsRemainderOf b r → (q ≡ floor_div a b) × (r ≡ floor_mod a b) }
{}

/// A power with exponent 0 is 1, and one exponent more is one product more.
pub fn powers_are_products()
    ensures none { (a : ℤ) → int_pow a 0 ≡ pos 1 }
    ensures more { (a : ℤ) (e : ℕ) → int_pow a (e + 1) ≡ int_pow a e *ℤ a }
{}

/// Bit i of `a & b`, `a | b` and `a ^ b` is 1 where both bits i are, where one of them is, and where they differ. This holds
/// for every i: an int's two's complement has its sign in each bit to the left of the 128.
pub fn bits_are_taken_in_pairs()
    ensures both { (a b : ℤ) (i : ℕ) → IsTrue (fits a) → IsTrue (fits b) → int_bit (int_bit_and w128 a b) i ≡ min (int_bit a i) (int_bit b i) }
    ensures either { (a b : ℤ) (i : ℕ) → IsTrue (fits a) → IsTrue (fits b) → int_bit (int_bit_or w128 a b) i ≡ max (int_bit a i) (int_bit b i) }
    ensures differing { (a b : ℤ) (i : ℕ) → IsTrue (fits a) → IsTrue (fits b) → int_bit (int_bit_xor w128 a b) i ≡ (int_bit a i + int_bit b i) % 2 }
{}

/// Each bit of `~a` is the other one.
pub fn bits_are_turned()
    ensures { (a : ℤ) (i : ℕ) → int_bit (complement a) i ≡ 1 - int_bit a i }
{}
