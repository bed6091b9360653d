//! Arguments, numbers and names of well-formed grammars.

ghost use Rattle.std.specs.Prelude.{◌≡◌, ℕ, ◌<◌, ◌≤◌, Some, IsTrue, List, length};
ghost use Rattle.std.specs.List.{AllByRecursion, Contains};
ghost use Rattle.adp_model.specs.declared.grammar.Arg.TheVariants.{Rule, Run};
ghost use Rattle.adp_model.specs.declared.grammar.Grammar.{Grammar};
ghost use Rattle.adp_model.specs.declared.grammar.Term.{Term};
ghost use Rattle.adp_model.specs.Parts.{algebra_at, alternative_at, alternatives_of, arguments_of, rule_at, sign_at, term_at, term_for};
ghost use Rattle.adp_model.specs.Printable.{IsPrintable};
ghost use Rattle.adp_model.specs.TermForms.{IsTermFor};
ghost use Rattle.adp_model.specs.WellFormed.{HasFittingBounds, IsKnown, is_name, is_term_for, is_well_formed};

/// An alternative has at most four arguments, and the rules and classes that they name are there.
pub fn arguments_are_few_and_known()
    ensures few { (grammar : Grammar) → IsTrue (is_well_formed grammar)
        → (rule alternative : ℕ) → length (arguments_of grammar rule alternative) ≤ 4 }
    ensures known { (grammar : Grammar) → IsTrue (is_well_formed grammar)
        → (rule alternative : ℕ) → AllByRecursion (IsKnown grammar) (arguments_of grammar rule alternative) }
{}

/// There are at most 128 rules, the axiom and each rule that an argument names is one of them, and the low bounds of runs
/// and of sizes are at most their high bounds.
pub fn numbers_fit_together()
    ensures few_rules { (grammar : Grammar) → IsTrue (is_well_formed grammar) → length grammar.rules ≤ 128 }
    ensures axiom_known { (grammar : Grammar) → IsTrue (is_well_formed grammar) → grammar.axiom < length grammar.rules }
    ensures named_known { (grammar : Grammar) → IsTrue (is_well_formed grammar) → (rule alternative other : ℕ)
        → Contains (arguments_of grammar rule alternative) (Rule other) → other < length grammar.rules }
    ensures runs_in_order { (grammar : Grammar) → IsTrue (is_well_formed grammar)
        → (rule alternative class low high : ℕ)
        → Contains (arguments_of grammar rule alternative) (Run class low (Some high)) → low ≤ high }
    ensures sizes_fit { (grammar : Grammar) → IsTrue (is_well_formed grammar) → (rule alternative : ℕ)
        → HasFittingBounds (alternative_at grammar rule alternative) }
{}

/// An algebra has a term for each sign, one for as many arguments as its sign has kinds.
pub fn terms_fit_their_signs()
    ensures terms { (grammar : Grammar) → IsTrue (is_well_formed grammar) → (algebra : ℕ)
        → algebra < length grammar.algebras → length (algebra_at grammar algebra).terms ≡ length grammar.signs }
    ensures fit { (grammar : Grammar) → IsTrue (is_well_formed grammar) → (algebra sign : ℕ)
        → algebra < length grammar.algebras → sign < length grammar.signs
        → IsTermFor (length (sign_at grammar sign).kinds) (term_for grammar algebra sign) }
{}

/// A rule has one to 64 alternatives, and only the grammar's rules have any. The sign of an alternative is there, and
/// it has at least one argument.
pub fn alternatives_fit()
    ensures some { (grammar : Grammar) → IsTrue (is_well_formed grammar) → (rule : ℕ)
        → rule < length grammar.rules → 1 ≤ length (alternatives_of grammar rule) }
    ensures few { (grammar : Grammar) → IsTrue (is_well_formed grammar) → (rule : ℕ)
        → length (alternatives_of grammar rule) ≤ 64 }
    ensures rule { (grammar : Grammar) (rule alternative : ℕ) → alternative < length (alternatives_of grammar rule)
        → rule < length grammar.rules }
    ensures sign { (grammar : Grammar) → IsTrue (is_well_formed grammar) → (rule alternative : ℕ)
        → alternative < length (alternatives_of grammar rule)
        → (alternative_at grammar rule alternative).sign < length grammar.signs }
    ensures arguments { (grammar : Grammar) → IsTrue (is_well_formed grammar) → (rule alternative : ℕ)
        → alternative < length (alternatives_of grammar rule) → 1 ≤ length (arguments_of grammar rule alternative) }
{}

/// An algebra's term for an alternative is there, one for as many arguments as the alternative has.
pub fn terms_fit_their_alternatives()
    ensures there { (grammar : Grammar) → IsTrue (is_well_formed grammar) → (algebra rule alternative : ℕ)
        → algebra < length grammar.algebras → alternative < length (alternatives_of grammar rule)
        → (alternative_at grammar rule alternative).sign < length (algebra_at grammar algebra).terms }
    ensures fit { (grammar : Grammar) → IsTrue (is_well_formed grammar) → (algebra rule alternative : ℕ)
        → algebra < length grammar.algebras → alternative < length (alternatives_of grammar rule)
        → IsTermFor (length (arguments_of grammar rule alternative)) (term_at grammar algebra rule alternative) }
{}

/// What is tested of a term for so many arguments is so.
pub fn tested_terms_fit()
    ensures { (count : ℕ) (term : Term) → IsTrue (is_term_for count term) → IsTermFor count term }
{}

/// A name has at most 32 bytes, and all of them are printable.
pub fn names_are_short_and_printable()
    ensures short { (name : List ℕ) → IsTrue (is_name name) → length name ≤ 32 }
    ensures printable { (name : List ℕ) → IsTrue (is_name name) → IsPrintable name }
{}

/// The signs, algebras and rules of a grammar have names.
pub fn parts_have_names()
    ensures signs { (grammar : Grammar) → IsTrue (is_well_formed grammar)
        → (sign : ℕ) → sign < length grammar.signs → IsTrue (is_name (sign_at grammar sign).name) }
    ensures algebras { (grammar : Grammar) → IsTrue (is_well_formed grammar)
        → (algebra : ℕ) → algebra < length grammar.algebras → IsTrue (is_name (algebra_at grammar algebra).name) }
    ensures rules { (grammar : Grammar) → IsTrue (is_well_formed grammar)
        → (rule : ℕ) → rule < length grammar.rules → IsTrue (is_name (rule_at grammar rule).name) }
{}
