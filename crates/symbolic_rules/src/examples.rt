// The examples: each is the contract of a function that does nothing.

ghost use Rattle.std.specs.Prelude.{ℕ, List, [], ◌∷◌, None};
ghost use Rattle.spec_core.specs.Code.{Program};
ghost use Rattle.spec_core.specs.Terms.{TermTree, variable};
ghost use Rattle.spec_core.specs.Theories.{Premise};
ghost use Rattle.rule_model.specs.Actions.{inside, at_gate};
ghost use Rattle.rule_model.specs.Derivations.{pre, exiting, val, hiding, enend};
ghost use Rattle.symbolic_rules.specs.Windows.{Windows};
ghost use Rattle.symbolic_rules.specs.Examples.{x_of, offering, choosing, taking, taking_inside, handing_on, ShowsWindow, EmptySort};
ghost use Rattle.symbolic_rules.specs.Examples.{OfferOfValue, OfferGives, AgreedValues, CompleteAnswers, GivenMarks, GuardedMark};
ghost use Rattle.symbolic_rules.specs.Examples.{GivenValues, ThreeTake, FalseGuard};

/// `choice x:S [] g !x; stop`.
pub fn offered_values()
    ensures { (program : Program) (w : Windows) (g sort : ℕ) →
        ShowsWindow program w sort (offering g sort (variable 0)) (at_gate g) (λ slot. val slot (pre [])) }
{}

/// `choice x:S [] g; stop`.
pub fn unused_values()
    ensures { (program : Program) (w : Windows) (g sort : ℕ) →
        ShowsWindow program w sort (choosing g sort) (at_gate g) (λ slot. val slot (pre [])) }
{}

/// `g ?x:S; stop`.
pub fn taken_values()
    ensures { (program : Program) (w : Windows) (g sort : ℕ) →
        ShowsWindow program w sort (taking g (x_of sort) None) (at_gate g) (λ slot. pre (slot ∷ [])) }
{}

/// `hide g in g ?x:S; stop`.
pub fn hidden_values()
    ensures { (program : Program) (w : Windows) (g sort : ℕ) →
        ShowsWindow program w sort (taking_inside g sort) inside (λ slot. hiding (pre (slot ∷ []))) }
{}

/// `exit(any S) >> accept x:S in stop`.
pub fn handed_values()
    ensures { (program : Program) (w : Windows) (sort : ℕ) →
        ShowsWindow program w sort (handing_on sort) inside (λ slot. enend (exiting (slot ∷ []))) }
{}

/// `choice x:S [] g; stop`, where S has no value.
pub fn empty_sort()
    ensures { (program : Program) (w : Windows) (g sort : ℕ) → EmptySort program w g sort }
{}

/// `choice x:S [] g !x; stop`, and the offer `g !v`.
pub fn offer_of_value()
    ensures { (program : Program) (w : Windows) (g sort : ℕ) (v : List ℕ) → OfferOfValue program w g sort v }
{}

/// `g ?x:S; stop`, and the offer `g !v`.
pub fn offer_gives()
    ensures { (program : Program) (w : Windows) (g sort : ℕ) → OfferGives program w g sort }
{}

/// `choice x:S [] g !x; stop || g ?y:S; stop`.
pub fn agreed_values()
    ensures { (program : Program) (w : Windows) (g sort : ℕ) → AgreedValues program w g sort }
{}

/// `choice x:S [] g !f(x); stop || g ?y:T; stop`.
pub fn complete_answers()
    ensures { (program : Program) (w : Windows) (g f sort other : ℕ) → CompleteAnswers program w g f sort other }
{}

/// `choice x:S [] g !x; stop`, `g ?y:S [y = E]; stop` and `g ?z:S; stop`, grouped in two ways.
pub fn given_marks()
    ensures { (program : Program) (w : Windows) (g sort : ℕ) (e : TermTree) → GivenMarks program w g sort e }
{}

/// `choice x:S [] [x = E] -> i; stop`.
pub fn guarded_mark()
    ensures { (program : Program) (w : Windows) (sort : ℕ) (e : TermTree) → GuardedMark program w sort e }
{}

/// `exit(any S, c) ||| exit(e, any T) >> accept x:S, y:T in stop`.
pub fn given_values()
    ensures { (program : Program) (w : Windows) (sort c e other : ℕ) → GivenValues program w sort c e other }
{}

/// `(g ?x:S; stop || g ?y:S [p]; stop) || g ?z:S [q]; stop`, and the offer `g ?S`.
pub fn three_take()
    ensures { (program : Program) (w : Windows) (g sort : ℕ) (p q : Premise) → ThreeTake program w g sort p q }
{}

/// `[p] -> a; stop [] b; stop`, where p doesn't hold.
pub fn false_guard()
    ensures { (program : Program) (w : Windows) (a b : ℕ) (p : Premise) → FalseGuard program w a b p }
{}
