// Refusals without names.

ghost use Rattle.std.specs.Prelude.{◌≡◌};
ghost use Rattle.type_names.specs.Refused.{refused};

use lotos_ast::names::Names;
use lotos_ast::place::Place;
use lotos_ast::refusal::{Refusal, RefusalKind};
use std::alloc::Global;

/// A refusal without names. It takes no memory.
pub fn refused(alloc: Global, kind: RefusalKind, place: Place) -> Refusal
    ensures { result ≡ refused kind place }
{
    Refusal {
        kind,
        place,
        names: Names::none(alloc),
    }
}
