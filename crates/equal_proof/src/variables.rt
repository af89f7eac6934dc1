// The variables of a left side, and what is bound to them.

ghost use Rattle.std.specs.Prelude.{◌≡◌, IfSome, OnOk, map, nat_eq};
ghost use Rattle.std.specs.List.{list_any};
ghost use Rattle.spec_core.specs.Lists.{Each};
ghost use Rattle.spec_core.specs.Terms.{term_of, terms};
ghost use Rattle.value_table.specs.Tables.{tree_at, IsRow};
ghost use Rattle.equal_proof.specs.Certificates.{bound_by, with_variable, with_variables, with_all_variables};

use spec_core::memory::Memory;
use spec_core::term::Term;
use value_table::table::TermTable;

// Whether a variable is among those that were found. It takes no memory.
fn is_found(found: &[u32], variable: u32) -> bool
    ensures { result ≡ list_any (nat_eq variable) found.now }
{
    match found {
        [] => false,
        [first, others @ ..] => variable == *first || is_found(others, variable),
    }
}

// Appends a variable that isn't there.
fn add_variable(found: &mut Vec<u32>, variable: u32) -> Result<(), Memory>
    ensures { OnOk result (found.new.items ≡ with_variable found.old.items variable) }
{
    if !is_found(found, variable) {
        found.push(variable)?;
    }
    Ok(())
}

/// Appends the variables of a term that aren't there, in the order of their first occurrences. It recurs as deep as the term, which is one
/// of the specification's text.
#[cycle(variables)]
pub fn add_variables(found: &mut Vec<u32>, term: &Term) -> Result<(), Memory>
    ensures { OnOk result (found.new.items ≡ with_variables found.old.items (term_of term.now)) }
{
    match term {
        Term::Var(variable) => add_variable(found, *variable),
        Term::App(_, args) => add_all_variables(found, args),
    }
}

// Appends the variables of terms that aren't there.
#[cycle(variables)]
fn add_all_variables(found: &mut Vec<u32>, all: &[Term]) -> Result<(), Memory>
    ensures { OnOk result (found.new.items ≡ with_all_variables found.old.items (terms (map term_of all.now))) }
{
    for term in all {
        add_variables(found, term)?;
    }
    Ok(())
}

/// The row that is bound to a variable, where rows are bound to variables one by one. It takes no memory.
pub fn bound_row(table: &TermTable, variables: &[u32], rows: &[u32], variable: u32) -> Option<u32>
    requires there { Each (IsRow table.now) rows.now }
    ensures there { IfSome result (IsRow table.now) }
    ensures tree { IfSome result (λ row.
        tree_at table.now row ≡ bound_by variables.now (map (tree_at table.now) rows.now) variable) }
{
    match variables {
        [] => None,
        [first, others @ ..] => match rows {
            [] => None,
            [row, rest @ ..] => {
                if *first == variable {
                    Some(*row)
                } else {
                    bound_row(table, others, rest, variable)
                }
            }
        },
    }
}
