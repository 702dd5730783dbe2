ghost use Rattle.std.specs.Prelude.{◌≡◌, IfOk, IsTrue};
ghost use Rattle.std.specs.Cmp.Lexicographic.{slice_cmp};
ghost use Rattle.std.specs.List.{list_all};
ghost use Rattle.std.specs.Ordering.{int_cmp, nat_cmp};
ghost use Rattle.language_rules.specs.Ordering.{in_order, is_number, is_text};
ghost use Rattle.item_sorting.specs.Keys.{bytes_of, number_of};

use py_ints::int_compare;
use rp_base::{NoMemory, Plain};
use std::cmp::Ordering;

/// What a bool or an int counts as.
fn number_of(plain: &Plain) -> i128
    ensures { result ≡ number_of plain.now }
{
    match plain {
        Plain::Bool(b) => i128::from(*b),
        Plain::Int(n) => *n,
        _ => 0,
    }
}

/// The text that it is, and of any other value the empty one.
fn text_of(plain: &Plain) -> &str
    ensures { result.now ≡ bytes_of plain.now }
{
    match plain {
        Plain::Text(text) => text.as_str(),
        _ => "",
    }
}

fn compare_numbers(a: &Plain, b: &Plain) -> Ordering
    ensures { result ≡ int_cmp (number_of a.now) (number_of b.now) }
{
    int_compare(number_of(a), number_of(b))
}

/// The order of the bytes of two texts, which is that of their code points.
fn compare_texts(a: &Plain, b: &Plain) -> Ordering
    ensures { result ≡ slice_cmp nat_cmp (bytes_of a.now) (bytes_of b.now) }
{
    text_of(a).cmp(text_of(b))
}

/// These numbers in order; equals keep their order. It takes n log n comparisons of n numbers.
pub(crate) fn numbers_in_order(mut plains: Vec<Plain>) -> Result<Vec<Plain>, NoMemory>
    requires { IsTrue (list_all is_number plains.items) }
    ensures { IfOk result (λ ps. ps.items ≡ in_order plains.items) }
{
    plains.sort_by(|a, b| compare_numbers(a, b))?;
    Ok(plains)
}

/// These texts in order; equals keep their order. It takes n log n comparisons of n texts.
pub(crate) fn texts_in_order(mut plains: Vec<Plain>) -> Result<Vec<Plain>, NoMemory>
    requires { IsTrue (list_all is_text plains.items) }
    ensures { IfOk result (λ ps. ps.items ≡ in_order plains.items) }
{
    plains.sort_by(|a, b| compare_texts(a, b))?;
    Ok(plains)
}
