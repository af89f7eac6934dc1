// Texts of types with the equations, or the whole data, that they come to, worked out by hand.

use crate::data_text::{data_text, equations_text};
use crate::texts::data;
use std::test::Fail;

// Whether the types of the library stand before them, the types, and their equations, behind those of the library: of each its place, its
// variables in the order in which they occur, its premises and its sides.
const EQUATIONS: [(bool, &str, &str); 22] = [
    (
        false,
        "type T is sorts A, B opns a : -> A f : A -> A eqns forall x : A ofsort A\nf(x) = a;\nf(f(x)) = x endtype",
        "2:1 x:A f(x)=a;3:1 x:A f(f(x))=x;",
    ),
    (
        false,
        "type T is sorts A, B opns a : -> A f : A -> A eqns ofsort A forall x : A\nf(x) = a endtype",
        "2:1 x:A f(x)=a;",
    ),
    (
        false,
        "type T is sorts A, B opns a : -> A f : A -> A eqns forall x : B ofsort A forall x : A\nf(x) = a endtype",
        "2:1 x:A f(x)=a;",
    ),
    (
        false,
        "type T is sorts A, B opns a : -> A f : A -> A eqns forall x : B forall X : A ofsort A\nf(x) = a endtype",
        "2:1 X:A f(X)=a;",
    ),
    (
        false,
        "type T is sorts A opns f : A -> A g : A, A -> A eqns forall v, w, x, y, z : A ofsort A\ng(z, y) = x => f(y) = g(w, z) endtype",
        "2:1 y:A z:A x:A w:A g(z,y)=x => f(y)=g(w,z);",
    ),
    (
        false,
        "type T is sorts A, B opns f : A -> B g : A, B -> B eqns forall x : A, y : B ofsort B\ng(x, y) = f(x) endtype",
        "2:1 x:A y:B g(x,y)=f(x);",
    ),
    (
        false,
        "type T is sorts A opns a : -> A eqns forall x : A ofsort A\na = a endtype",
        "2:1 a=a;",
    ),
    (
        false,
        "type P is sorts A opns a : -> A endtype type Q is sorts C opns c : -> C _+_ : C, C -> C endtype\ntype R is Q opns h : C -> C \
         eqns forall x : C ofsort C\nh(x) = x + c endtype",
        "3:1 x:C h(x)=(x + c);",
    ),
    (
        false,
        "type R is P, Q eqns ofsort A\na = f(c) endtype type P is sorts A opns a : -> A endtype type Q is P sorts C opns c : -> C f : C \
         -> A endtype",
        "2:1 a=f(c);",
    ),
    (
        false,
        "type P is sorts A opns a : -> A endtype\ntype R is P renamedby opnnames b for a endtype",
        "",
    ),
    (
        false,
        "type F is formalsorts E formalopns e : -> E formaleqns ofsort E\ne = e\nsorts A opns a : -> A eqns ofsort A\na = a endtype\ntype \
         N is sorts S opns z : -> S endtype\ntype T is F actualizedby N using sortnames S for E opnnames z for e endtype",
        "4:1 a=a;2:1 z=z;",
    ),
    (
        false,
        "type F is formalsorts E formalopns e : -> E formaleqns ofsort E e = e endtype\ntype N is sorts S opns z : -> S endtype\ntype T \
         is F actualizedby N using sortnames S for E opnnames z for e endtype",
        "1:65 z=z;",
    ),
    (
        false,
        "type T is sorts A opns a : -> A eqns ofsort a\nA = a of a endtype",
        "2:1 a=a;",
    ),
    (
        true,
        "type T is Boolean sorts A opns a : -> A f : Bool -> A eqns forall x : Bool ofsort A\nx => f(x) = a endtype",
        "2:1 x:Bool x=true => f(x)=a;",
    ),
    (
        true,
        "type T is Boolean sorts A opns a : -> A f : Bool -> A eqns forall x : Bool ofsort A\nx = true, not(x) => f(x) = a endtype",
        "2:1 x:Bool x=true => not(x)=true => f(x)=a;",
    ),
    (
        true,
        "type T is Boolean sorts A opns a : -> A f : Bool -> A eqns forall true : Bool ofsort A\ntrue => f(true) = a endtype",
        "2:1 true:Bool true=true => f(true)=a;",
    ),
    (
        true,
        "type T is Boolean sorts A opns a : -> A f : Bool -> A eqns forall true : A ofsort A\nfalse => true = a endtype",
        "2:1 true:A false=true => true=a;",
    ),
    (
        false,
        "type T is sorts A, bool opns true : -> A TRUE : -> bool eqns ofsort A\ntrue => true = true endtype",
        "2:1 TRUE of bool=TRUE of bool => true of A=true of A;",
    ),
    (
        false,
        "type T is sorts N, Z opns 0 : -> N 0 : -> Z eqns ofsort N\n0 of Z = 0 => 0 = 0 endtype",
        "2:1 0 of Z=0 of Z => 0 of N=0 of N;",
    ),
    (
        false,
        "type T is sorts A, B opns a : -> A b : -> B f : A -> A f : A -> B eqns\nforall x : A ofsort A f(x) = x endtype",
        "2:23 x:A f(x) of A=x;",
    ),
    (
        false,
        "type T is sorts A, B opns a : -> A b : -> B f : A -> A f : A -> B eqns\nforall x : B forall x : A ofsort A f(x) = x endtype",
        "2:36 x:A f(x) of A=x;",
    ),
    (
        false,
        "type T is sorts A, B opns a : -> A b : -> B f : A -> A f : A -> B eqns\nofsort A b = f(a) => a = a endtype",
        "2:10 b=f(a) of B => a=a;",
    ),
];

#[test]
fn equations_are_read(rt: HostRuntime) -> Result<(), Fail> {
    let library = equations_text(rt.alloc(), &data(rt.alloc(), true, "")?)?;
    for (with_library, text, due) in &EQUATIONS {
        let algebra = data(rt.alloc(), *with_library, text)?;
        let found = equations_text(rt.alloc(), &algebra)?;
        let mut all = String::new(rt.alloc());
        if *with_library {
            all.push_str(library.as_str())?;
        }
        all.push_str(due)?;
        assert_eq!(rt; found.as_str(), all.as_str(), "at {text}");
    }
    Ok(())
}

// Types with copies, and the sorts, the operations and the equations of their data.
const COPIES: [(&str, &str); 14] = [
    // all sorts and operations over the sort are others
    (
        "type P is sorts A opns c : -> A f : A -> A eqns forall x : A ofsort A\nf(x) = c endtype\ntype Q is P renamedby sortnames B for A \
         endtype",
        "A B | c f c f | 2:1 x:A f(x)=c of A;2:1 x:B f(x)=c of B;",
    ),
    // two names change places
    (
        "type P is sorts A opns c, d : -> A f : A -> A eqns ofsort A\nf(c) = d endtype\ntype Q is P renamedby opnnames d for c c for d \
         endtype",
        "A | c d f | 2:1 f(c)=d;2:1 f(d)=c;",
    ),
    // nothing in the equation changes
    (
        "type P is sorts A opns c, d, e : -> A eqns ofsort A\nc = d endtype\ntype Q is P renamedby opnnames g for e endtype",
        "A | c d e g | 2:1 c=d;",
    ),
    // premises are copied too
    (
        "type P is sorts A opns c, d : -> A f : A -> A eqns forall x : A ofsort A\nx = c => f(x) = d endtype\ntype Q is P renamedby \
         opnnames e for c endtype",
        "A | c d f e | 2:1 x:A x=c => f(x)=d;2:1 x:A x=e => f(x)=d;",
    ),
    // a copy of a copy
    (
        "type P is sorts A opns c, d : -> A eqns ofsort A\nc = d endtype\ntype Q is P renamedby opnnames e for c endtype\ntype R is Q \
         renamedby opnnames g for e endtype",
        "A | c d e g | 2:1 c=d;2:1 e=d;2:1 g=d;",
    ),
    // one formal equation has an image in each copy, and isn't part of the data itself
    (
        "type F is formalsorts E formalopns p : E -> E formaleqns forall x : E ofsort E\np(x) = x endtype\ntype A is sorts N opns z : -> \
         N s : N -> N endtype\ntype B is sorts M opns y : -> M t : M -> M endtype\ntype G is F actualizedby A using sortnames N for E \
         opnnames s for p endtype\ntype H is F actualizedby B using sortnames M for E opnnames t for p endtype",
        "N M | z s y t | 2:1 x:N s(x)=x;2:1 x:M t(x)=x;",
    ),
    // the image is an equation that is there already
    (
        "type B is sorts Bool opns true, false : -> Bool not : Bool -> Bool eqns ofsort Bool\nnot(false) = true endtype\ntype F is \
         formalsorts E formalopns a, b : -> E n : E -> E formaleqns ofsort E\nn(b) = a endtype\ntype G is F actualizedby B using \
         sortnames Bool for E opnnames true for a false for b not for n endtype",
        "Bool | true false not | 2:1 not(false)=true;",
    ),
    // an item of the formal type that stays is numbered where the formal type stands
    (
        "type F is formalsorts E sorts L opns nil : -> L cons : E, L -> L eqns forall x : E ofsort L\ncons(x, nil) = nil endtype\ntype A \
         is sorts N opns z : -> N endtype\ntype T is F actualizedby A using sortnames N for E endtype\ntype W is T opns f : L -> N eqns \
         ofsort N\nf(nil) = z endtype",
        "L N | nil z cons f | 2:1 x:N cons(x,nil)=nil;6:1 f(nil)=z;",
    ),
    // a type that only renames a formal type is formal
    (
        "type F is formalsorts E opns c : -> E eqns ofsort E\nc = c endtype\ntype G is F renamedby opnnames d for c endtype",
        "| | ",
    ),
    // what is left open in an actual type is part of the data
    (
        "type F is formalsorts E endtype\ntype G is formalsorts H opns h : -> H eqns ofsort H\nh = h endtype\ntype T is F actualizedby G \
         using sortnames H for E endtype",
        "H | h | 3:1 h=h;",
    ),
    // by two ways from one type
    (
        "type P is sorts A opns c, d : -> A eqns ofsort A\nc = d endtype\ntype Q is P endtype\ntype R is P endtype\ntype S is Q, R endtype",
        "A | c d | 2:1 c=d;",
    ),
    // the names and the place of the first stand
    (
        "type P is sorts A opns f : A -> A endtype\ntype Q is P eqns forall x : A ofsort A\nf(x) = x endtype\ntype R is P eqns forall y : \
         A ofsort A\nf(y) = y endtype",
        "A | f | 3:1 x:A f(x)=x;",
    ),
    // the order is that of the list of types
    (
        "type Q is P eqns ofsort A\nc = d endtype\ntype P is sorts A opns c, d : -> A eqns ofsort A\nd = c endtype",
        "A | c d | 2:1 c=d;4:1 d=c;",
    ),
    // an infix operation stands between its arguments
    (
        "type P is sorts A opns c : -> A _p_ : A, A -> A eqns forall x : A ofsort A\nx p c = x endtype",
        "A | c _p_ | 2:1 x:A (x p c)=x;",
    ),
];

#[test]
fn equations_have_images_in_copies(rt: HostRuntime) -> Result<(), Fail> {
    for (text, due) in &COPIES {
        let algebra = data(rt.alloc(), false, text)?;
        let found = data_text(rt.alloc(), &algebra)?;
        assert_eq!(rt; found.as_str(), *due, "at {text}");
    }
    Ok(())
}
