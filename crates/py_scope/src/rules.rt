ghost use Rattle.std.specs.Prelude.{◌≡◌, ℕ, List, IfOk};
ghost use Rattle.py_mentions.specs.Worst.{worst, worst_with};
ghost use Rattle.py_scope.specs.Rules.{misnames, raises_other, is_special_method, is_too_private, leaks, is_base_before, derives_operators, misderives, is_bad_declaration, misdeclares, refused_if, breaks, broken_names};
ghost use Rattle.py_scope.specs.Tables.{Knows, KnowsLocals};

use crate::facts::Facts;
use crate::forms::{
    is_attribute, is_base, is_caught, is_class, is_global, is_nonlocal, is_raised, names_anew,
};
use crate::locals::LocalTable;
use crate::words::{is_left_out, is_private, is_reserved, is_special};
use py_mentions::{Form, Mention, is_exception, worse};
use rp_base::{NoMemory, Refused, Rule};
use std::alloc::Global;

/// Whether it gives a name of the language another meaning, or a name that is left out.
#[tactic(auto, unfolding(crate::specs::Rules::misnames))]
fn misnames(mention: &Mention) -> bool
    ensures { result ≡ misnames mention.now }
{
    let name = mention.name.as_str();
    (names_anew(mention.form) && is_reserved(name))
        || (!is_attribute(mention.form) && is_left_out(name))
}

fn is_special_method(form: Form, name: &str) -> bool
    ensures { result ≡ is_special_method form name.now }
{
    match form {
        Form::Method(count) => is_special(name, count),
        _ => false,
    }
}

/// Whether its name begins with two underscores, and is not that of a special method with its number of parameters.
#[tactic(auto, unfolding(crate::specs::Rules::is_too_private))]
fn is_too_private(mention: &Mention) -> bool
    ensures { result ≡ is_too_private mention.now }
{
    let name = mention.name.as_str();
    is_private(name) && !is_special_method(mention.form, name)
}

/// The worst so far, with a rule that is broken at a line or not.
#[tactic(auto, unfolding(py_mentions::specs::Worst::worst_with))]
fn worst_if(worst: Option<Refused>, is_broken: bool, line: u32, rule: Rule) -> Option<Refused>
    ensures { result ≡ worst_with worst (refused_if is_broken line rule) }
{
    if is_broken {
        Some(worse(worst, Refused { line, rule }))
    } else {
        worst
    }
}

impl<'a> Facts<'a> {
    /// Whether it raises neither an exception class nor what a handler caught.
    #[tactic(auto, unfolding(crate::specs::Rules::raises_other))]
    fn raises_other(&self, mention: &Mention) -> bool
        requires { Knows self.now }
        ensures { result ≡ raises_other self.now.mentions.now mention.now }
    {
        let name = mention.name.as_str();
        is_raised(mention.form)
            && !is_exception(name.as_bytes())
            && !self.names.facts(name).is_handled
    }

    /// Whether it is a handler's name elsewhere than after `as` and where its handler uses it.
    #[tactic(auto, unfolding(crate::specs::Rules::leaks))]
    fn leaks(&self, mention: &Mention) -> bool
        requires { Knows self.now }
        ensures { result ≡ leaks self.now.mentions.now mention.now }
    {
        self.names.facts(mention.name.as_str()).is_handled
            && !is_caught(mention.form)
            && !mention.is_guarded
    }

    /// Whether a class statement before this one has the name.
    fn is_base_before(&self, class: Option<u32>, name: &str) -> bool
        requires { Knows self.now }
        ensures { result ≡ is_base_before self.now.mentions.now class name.now }
    {
        let Some(number) = class else {
            return false;
        };
        match self.names.facts(name).first_class {
            Some(first) => first < number,
            None => false,
        }
    }

    /// Whether the class has a method for comparisons or arithmetic, and has a base or is named as one.
    fn derives_operators(&self, class: Option<u32>, name: &str) -> bool
        requires { Knows self.now }
        ensures { result ≡ derives_operators self.now.mentions.now class name.now }
    {
        let Some(number) = class else {
            return false;
        };
        let facts = self.classes.facts(number);
        facts.has_operator && (facts.has_base || self.names.facts(name).is_base)
    }

    #[tactic(auto, unfolding(crate::specs::Rules::misderives))]
    fn misderives(&self, mention: &Mention) -> bool
        requires { Knows self.now }
        ensures { result ≡ misderives self.now.mentions.now mention.now }
    {
        let name = mention.name.as_str();
        if is_base(mention.form) {
            !self.is_base_before(mention.class, name) || self.names.facts(name).is_rebound
        } else {
            is_class(mention.form) && self.derives_operators(mention.class, name)
        }
    }

    /// Whether a `global` or `nonlocal` may not stand there. `before` says what the mentions before it say.
    fn is_bad_declaration(&self, before: &LocalTable<'a>, mention: &'a Mention) -> bool
        requires { Knows self.now }
        ensures { (earlier : List Mention) → KnowsLocals earlier before.now.map → result ≡ is_bad_declaration self.now.mentions.now self.now.functions.now earlier mention.now mention.now.function }
    {
        let Some(function) = mention.function else {
            return true;
        };
        let name = mention.name.as_str();
        let facts = self.locals.facts(function, name);
        facts.is_parameter
            || before.facts(function, name).is_used
            || (facts.is_global && facts.is_nonlocal)
            || (is_nonlocal(mention.form) && !self.is_kept(self.parent(function), name))
    }

    #[tactic(auto, unfolding(crate::specs::Rules::misdeclares))]
    fn misdeclares(&self, before: &LocalTable<'a>, mention: &'a Mention) -> bool
        requires { Knows self.now }
        ensures { (earlier : List Mention) → KnowsLocals earlier before.now.map → result ≡ misdeclares self.now.mentions.now self.now.functions.now earlier mention.now }
    {
        (is_global(mention.form) || is_nonlocal(mention.form))
            && self.is_bad_declaration(before, mention)
    }

    /// The worst so far, with the rules that this mention breaks.
    fn judge(
        &self,
        worst: Option<Refused>,
        before: &LocalTable<'a>,
        mention: &'a Mention,
    ) -> Option<Refused>
        requires { Knows self.now }
        ensures { (earlier : List Mention) → KnowsLocals earlier before.now.map → result ≡ worst_with worst (breaks self.now.mentions.now self.now.functions.now earlier mention.now) }
    {
        let line = mention.line;
        let worst = worst_if(worst, misnames(mention), line, Rule::S1);
        let worst = worst_if(worst, self.raises_other(mention), line, Rule::S2);
        let worst = worst_if(worst, is_too_private(mention), line, Rule::S4);
        let worst = worst_if(worst, self.leaks(mention), line, Rule::S6);
        let worst = worst_if(worst, self.misderives(mention), line, Rule::S8);
        worst_if(worst, self.misdeclares(before, mention), line, Rule::S11)
    }

    /// The worst so far, with the rules on names that the script breaks.
    pub fn judge_all(
        &self,
        alloc: Global,
        worst: Option<Refused>,
    ) -> Result<Option<Refused>, NoMemory>
        requires { Knows self.now }
        ensures { IfOk result (λ w. w ≡ worst_with worst (broken_names self.now.mentions.now self.now.functions.now)) }
    {
        let mut before = LocalTable::new(alloc);
        let mut so_far = worst;
        for mention in self.mentions {
            so_far = self.judge(so_far, &before, mention);
            before.note(mention)?;
        }
        Ok(so_far)
    }
}
