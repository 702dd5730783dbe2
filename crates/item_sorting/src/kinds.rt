ghost use Rattle.std.specs.Prelude.{◌≡◌};
ghost use Rattle.std.specs.List.{list_all};
ghost use Rattle.language_rules.specs.Ordering.{is_number, is_text};

use rp_base::Plain;

/// Whether it is an int or a bool.
fn is_number(plain: &Plain) -> bool
    ensures { result ≡ is_number plain.now }
{
    match plain {
        Plain::Bool(_) => true,
        Plain::Int(_) => true,
        _ => false,
    }
}

fn is_text(plain: &Plain) -> bool
    ensures { result ≡ is_text plain.now }
{
    match plain {
        Plain::Text(_) => true,
        _ => false,
    }
}

/// Whether each is an int or a bool.
pub(crate) fn all_numbers(plains: &[Plain]) -> bool
    ensures { result ≡ list_all is_number plains.now }
{
    for plain in plains {
        if !is_number(plain) {
            return false;
        }
    }
    true
}

pub(crate) fn all_texts(plains: &[Plain]) -> bool
    ensures { result ≡ list_all is_text plains.now }
{
    for plain in plains {
        if !is_text(plain) {
            return false;
        }
    }
    true
}
