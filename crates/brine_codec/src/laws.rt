ghost use Rattle.std.specs.Prelude.{◌≡◌, ◌≢◌, ◌≤◌, ◌*◌, ◌++◌, ◌∷◌, [], List, ℕ, IsTrue, Ok, Err, length, take, drop};
ghost use Rattle.rp_base.specs.declared.plain.Plain.{Plain};
ghost use Rattle.rp_base.specs.PlainValues.{plain_depth, plain_weight};
ghost use Rattle.brine_codec.specs.declared.ends.BrineFault.{BrineFault};
ghost use Rattle.brine_codec.specs.declared.ends.BrineKind.TheVariants as kinds;
ghost use Rattle.brine_codec.specs.Spelling.{IsBytes, spelling, spellable};
ghost use Rattle.brine_codec.specs.Reading.{decoded};

/// A value has one spelling, and no spelling begins another.
pub fn one_spelling()
    ensures { (v w : Plain) (x y : List ℕ) → IsTrue (spellable v) → IsTrue (spellable w) → spelling v ++ x ≡ spelling w ++ y → (v ≡ w) × (x ≡ y) }
{}

/// What is spelled is read.
pub fn spellings_are_read()
    ensures { (v : Plain) → IsTrue (spellable v) → plain_depth v ≤ 100 → decoded (spelling v) ≡ Ok v }
{}

/// What is read was spelled.
pub fn only_spellings_are_read()
    ensures { (bytes : List ℕ) (v : Plain) → IsBytes bytes → decoded bytes ≡ Ok v → IsTrue (spellable v) × (plain_depth v ≤ 100) × (bytes ≡ spelling v) }
{}

/// A spelling that lacks bytes at its end is cut there.
pub fn fronts_of_spellings_are_cut()
    ensures { (v : Plain) (front more : List ℕ) → IsTrue (spellable v) → plain_depth v ≤ 100 → front ++ more ≡ spelling v → more ≢ []
        → decoded front ≡ Err (record { at = length front; what = kinds.B3 }) }
{}

/// A cut is told at the input's length.
pub fn cuts_stand_at_the_end()
    ensures { (bytes : List ℕ) (f : BrineFault) → decoded bytes ≡ Err f → f.what ≡ kinds.B3 → f.at ≡ length bytes }
{}

/// Any other fault is the same, in the same place, whatever bytes come behind: it is the first from the left.
pub fn faults_stay_first()
    ensures { (bytes more : List ℕ) (f : BrineFault) → decoded bytes ≡ Err f → f.what ≢ kinds.B3 → decoded (bytes ++ more) ≡ Err f }
{}

/// Before the place of a fault nothing is wrong: the bytes there are only cut. With `faults_stay_first`, no fault is
/// told too early or too late.
pub fn faults_stand_at_the_first_place()
    ensures { (bytes : List ℕ) (f : BrineFault) → decoded bytes ≡ Err f → f.what ≢ kinds.B9 → decoded (take f.at bytes) ≡ Err (record { at = f.at; what = kinds.B3 }) }
{}

/// What is wrong is told by the bytes from the place on: they alone have the same fault, at 0. A cut has no bytes there,
/// a depth depends on what stands before, and a byte too many on the value before it.
pub fn faults_are_told_by_what_stands_there()
    ensures { (bytes : List ℕ) (f : BrineFault) → decoded bytes ≡ Err f → f.what ≢ kinds.B3 → f.what ≢ kinds.B8 → f.what ≢ kinds.B9
        → decoded (drop f.at bytes) ≡ Err (record { at = 0; what = f.what }) }
{}

/// A byte behind a spelling is one too many.
pub fn bytes_behind_are_refused()
    ensures { (v : Plain) (b : ℕ) (more : List ℕ) → IsTrue (spellable v) → plain_depth v ≤ 100
        → decoded (spelling v ++ b ∷ more) ≡ Err (record { at = length (spelling v); what = kinds.B9 }) }
{}

/// Before a byte too many stands the spelling of a value.
pub fn values_stand_before_trailing_bytes()
    ensures { (bytes : List ℕ) (f : BrineFault) → IsBytes bytes → decoded bytes ≡ Err f → f.what ≡ kinds.B9 → (v : Plain) × (decoded (take f.at bytes) ≡ Ok v) }
{}

/// A value of weight w is spelled in at most 21 w bytes: an int weighs 2 and takes up to 42.
pub fn spellings_are_short()
    ensures { (v : Plain) → IsTrue (spellable v) → length (spelling v) ≤ 21 * plain_weight v }
{}
