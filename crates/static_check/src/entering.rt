// Where bodies stand.

ghost use Rattle.std.specs.Prelude.{◌≡◌, OnOk, IfOk, ◌∷◌, List, map};
ghost use Rattle.static_processes.specs.NamedParts.{headings_at, AreNamedPartsOf};
ghost use Rattle.static_processes.specs.Processes as processes;
ghost use Rattle.static_processes.specs.Processes.{visible_in};
ghost use Rattle.static_processes.specs.Views.{entry_of};
ghost use Rattle.static_readings.specs.Named.{one_behind_other};
ghost use Rattle.static_readings.specs.Sites as sites;
ghost use Rattle.static_check.specs.Bodies.{body_site};
ghost use Rattle.static_check.specs.Steps.{HasHeadings};
ghost use Rattle.static_check.specs.Views.{setting_of};

use crate::setting::Setting;
use lotos_ast::declaration::Declaration;
use lotos_ast::token::Token;
use spec_core::memory::Memory;
use static_processes::entry::Entry;
use static_processes::heading::{declarations_in, gates_in};
use static_processes::named_parts::NamedParts;
use static_readings::declarations::put_declarations;
use static_readings::named_processes::NamedProcesses;
use static_readings::site::Site;
use std::alloc::Global;

// The processes that can be called in the body of the process of this number.
fn visible_in_body<'p>(
    alloc: Global,
    parts: &'p NamedParts<'p>,
    number: usize,
    around: &[usize],
) -> Result<Vec<&'p NamedProcesses<'p>>, Memory>
    ensures { IfOk result (λ all. (headings : List sites.Heading) (table : List processes.Entry) → AreNamedPartsOf parts.now headings table
        → one_behind_other all.items ≡ headings_at headings (visible_in table (number ∷ around.now))) }
{
    let mut within = Vec::new(alloc);
    within.push(number)?;
    within.extend_from_slice(around)?;
    let all = parts.visible(alloc, &within)?;
    Ok(all)
}

// The formal gates of a process.
fn gates_of<'a>(entry: &Entry<'a>) -> &'a [Token]
    ensures { result.now ≡ (entry_of entry.now).process.gates }
{
    gates_in(&entry.process.gates)
}

// Its formal values.
fn parameters_of<'a>(entry: &Entry<'a>) -> &'a [Declaration]
    ensures { result.now ≡ (entry_of entry.now).process.parameters }
{
    declarations_in(&entry.process.parameters)
}

/// Goes to where the body of a process stands.
pub fn enter_body<'a>(
    alloc: Global,
    setting: &Setting<'a, '_>,
    number: usize,
    entry: &Entry<'a>,
    site: &mut Site<'a>,
) -> Result<(), Memory>
    requires headings { HasHeadings (setting_of site.old.context setting.now) setting.now }
    ensures { OnOk result (site.new ≡ body_site (setting_of site.old.context setting.now) number (entry_of entry.now)) }
{
    let all = visible_in_body(alloc, setting.parts, number, &entry.around)?;
    site.go(setting.gates, all);
    site.put_gates(gates_of(entry))?;
    put_declarations(alloc, site, parameters_of(entry))
}
