ghost use Rattle.std.specs.Prelude.{◌≡◌};
ghost use Rattle.py_scope.specs.Forms.{is_parameter, binds, is_member, is_caught, names_anew, is_global, is_nonlocal, reads, uses, looks_up, is_class, is_base, is_method, is_attribute, is_raised};

use py_mentions::Form;

/// Whether it binds the name in the function or script in which it stands.
pub(crate) fn binds(form: Form) -> bool
    ensures { result ≡ binds form }
{
    matches!(form, Form::Target | Form::Function | Form::Class)
}

pub(crate) fn is_parameter(form: Form) -> bool
    ensures { result ≡ is_parameter form }
{
    matches!(form, Form::Parameter)
}

fn is_member(form: Form) -> bool
    ensures { result ≡ is_member form }
{
    matches!(form, Form::Member | Form::Method(_))
}

pub(crate) fn is_caught(form: Form) -> bool
    ensures { result ≡ is_caught form }
{
    matches!(form, Form::Caught)
}

/// Whether it gives the name a meaning of the script's own, wherever that holds.
pub(crate) fn names_anew(form: Form) -> bool
    ensures { result ≡ names_anew form }
{
    binds(form) || is_parameter(form) || is_member(form) || is_caught(form)
}

pub(crate) fn is_global(form: Form) -> bool
    ensures { result ≡ is_global form }
{
    matches!(form, Form::Global)
}

pub(crate) fn is_nonlocal(form: Form) -> bool
    ensures { result ≡ is_nonlocal form }
{
    matches!(form, Form::Nonlocal)
}

fn reads(form: Form) -> bool
    ensures { result ≡ reads form }
{
    matches!(
        form,
        Form::Read | Form::Exception | Form::Raised | Form::Base
    )
}

/// Whether a `global` or `nonlocal` may not come behind it.
pub(crate) fn uses(form: Form) -> bool
    ensures { result ≡ uses form }
{
    binds(form) || reads(form)
}

/// Whether the name stands for what a scope holds.
pub(crate) fn looks_up(form: Form) -> bool
    ensures { result ≡ looks_up form }
{
    uses(form) || is_nonlocal(form)
}

pub(crate) fn is_class(form: Form) -> bool
    ensures { result ≡ is_class form }
{
    matches!(form, Form::Class)
}

pub(crate) fn is_base(form: Form) -> bool
    ensures { result ≡ is_base form }
{
    matches!(form, Form::Base)
}

pub(crate) fn is_method(form: Form) -> bool
    ensures { result ≡ is_method form }
{
    matches!(form, Form::Method(_))
}

pub(crate) fn is_attribute(form: Form) -> bool
    ensures { result ≡ is_attribute form }
{
    matches!(form, Form::Attribute)
}

pub(crate) fn is_raised(form: Form) -> bool
    ensures { result ≡ is_raised form }
{
    matches!(form, Form::Raised)
}
