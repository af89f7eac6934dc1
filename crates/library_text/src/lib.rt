//! The texts of the library's types.
#![tactic(auto)]

ghost use Rattle.std.specs.Prelude.{◌≡◌};
ghost use Rattle.library_text.specs.Texts.{boolean_text, natural_text};

/// The text of the type Boolean, from its first byte at line 1 and column 1 on. It takes no memory.
pub fn boolean() -> &'static str
    ensures { result.now ≡ boolean_text }
{
    "\
type Boolean is
sorts Bool
opns true (*! constructor *), false (*! constructor *) : -> Bool
     not : Bool -> Bool
     _and_, _or_, _xor_, _implies_, _iff_, _eq_, _ne_ : Bool, Bool -> Bool
eqns forall x : Bool ofsort Bool
  not(true) = false;        not(false) = true;
  true and x = x;           false and x = false;
  true or x = true;         false or x = x;
  true xor x = not(x);      false xor x = x;
  true implies x = x;       false implies x = true;
  true iff x = x;           false iff x = not(x);
  true eq x = x;            false eq x = not(x);
  true ne x = not(x);       false ne x = x;
endtype
"
}

/// The text of the type NaturalNumber, which imports Boolean. It takes no memory.
pub fn natural() -> &'static str
    ensures { result.now ≡ natural_text }
{
    "\
type NaturalNumber is Boolean
sorts Nat
opns 0 (*! constructor *) : -> Nat
     Succ (*! constructor *) : Nat -> Nat
     _+_, _*_, _**_ : Nat, Nat -> Nat
     _eq_, _ne_, _lt_, _le_, _ge_, _gt_ : Nat, Nat -> Bool
eqns forall m, n : Nat
ofsort Nat
  m + 0 = m;                m + Succ(n) = Succ(m + n);
  m * 0 = 0;                m * Succ(n) = m + (m * n);
  m ** 0 = Succ(0);         m ** Succ(n) = m * (m ** n);
ofsort Bool
  0 eq 0 = true;            0 eq Succ(n) = false;
  Succ(m) eq 0 = false;     Succ(m) eq Succ(n) = m eq n;
  m ne n = not(m eq n);
  m lt 0 = false;           0 lt Succ(n) = true;
  Succ(m) lt Succ(n) = m lt n;
  m le n = not(n lt m);     m ge n = not(m lt n);
  m gt n = n lt m;
endtype
"
}
