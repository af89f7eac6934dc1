// What a specification comes to, and everything that is refused of it.

ghost use Rattle.std.specs.Prelude.{◌≡◌, ◌<◌, ◌^◌, ◌-◌, ◌++◌, [], IfOk, OnOk, map, length, option_map, vec_len};
ghost use Rattle.static_readings.specs.Views.{functionality_of, output_of};
ghost use Rattle.static_call_cycles.specs.Unguarded.{unguarded_refusals};
ghost use Rattle.static_processes.specs.Headings.{declared, opening_refusals, table_refusals};
ghost use Rattle.static_processes.specs.Processes.{entries};
ghost use Rattle.static_processes.specs.Views.{entry_of};
ghost use Rattle.sort_overloads.specs.Views.{context_of};
ghost use Rattle.spec_core.specs.Code.{program_of};
ghost use Rattle.spec_core.specs.Theories.{theory_of};
ghost use Rattle.static_check.specs.Compiled as compiled;
ghost use Rattle.static_check.specs.Compiled.{data_context, IsJudged};
ghost use Rattle.static_check.specs.Steps.{HasHeadings};
ghost use Rattle.static_check.specs.Views.{data_of, setting_of};

use crate::assembly::{places, program_if};
use crate::bodies::read_bodies;
use crate::setting::Setting;
use crate::start::read_start;
use lotos_ast::refusal::Refusal;
use lotos_ast::spec::Spec;
use sort_overloads::name_index::NameIndex;
use sort_overloads::scope::Scope;
use sort_overloads::variables::Variables;
use spec_core::code::Checked;
use spec_core::equation::DataSpec;
use spec_core::memory::Memory;
use spec_core::name::Name;
use static_call_cycles::call::Call;
use static_call_cycles::unguarded::add_unguarded;
use static_processes::entry::Entry;
use static_processes::heading::{declared, gates_in, headings};
use static_processes::named_parts::NamedParts;
use static_processes::refusals::{add_opening_refusals, add_table_refusals};
use static_processes::table::processes;
use static_readings::functionality::Functionality;
use static_readings::output::Output;
use static_readings::site::Site;
use std::alloc::Global;

/// What a specification comes to.
#[derive(Drop)]
pub struct Judged {
    /// Its program, where all its behaviour is read.
    pub program: Option<Checked>,
    /// What is refused of it.
    pub refusals: Vec<Refusal>,
}

// The sorts and operations of the data. Want of memory is answered where there are about 2^32 of either.
fn data_scope(alloc: Global, algebra: &DataSpec) -> Result<Scope, Memory>
    ensures context { IfOk result (λ scope. context_of scope ≡ data_context (theory_of algebra.now)) }
    ensures few_operations { IfOk result (λ scope. vec_len scope.signature.ops < 2 ^ 32) }
    ensures few_sorts { IfOk result (λ scope. vec_len scope.signature.sorts < 2 ^ 32 - 1) }
{
    let signature = algebra.signature.copy(alloc)?;
    if signature.ops.len() >= 4_294_967_296 {
        return Err(Memory);
    }
    if signature.sorts.len() >= 4_294_967_295 {
        return Err(Memory);
    }
    Ok(Scope {
        signature,
        vars: Variables::new(alloc),
    })
}

// Where these are in scope.
fn data_site<'a>(alloc: Global, scope: Scope) -> Result<Site<'a>, Memory>
    requires few_operations { vec_len scope.signature.ops < 2 ^ 32 }
    requires few_sorts { vec_len scope.signature.sorts < 2 ^ 32 - 1 }
    ensures { IfOk result (λ site. data_of site.context ≡ data_of (context_of scope)) }
{
    let index = NameIndex::new(alloc, &scope.signature.ops)?;
    Ok(Site::new(alloc, scope, index))
}

// A number that is below 2^32; want of memory is answered where it isn't.
fn counted(count: usize) -> Result<u32, Memory>
    ensures { IfOk result (λ n. n ≡ count) }
{
    if count >= 4_294_967_296 {
        return Err(Memory);
    }
    Ok(count as u32)
}

// Places for the nodes of processes, and what is refused of the headings.
fn opened(alloc: Global, scope: &Scope, spec: &Spec, table: &[Entry<'_>]) -> Result<Output, Memory>
    ensures code { IfOk result (λ out. length (output_of out).code ≡ length (map entry_of table.now)) }
    ensures refusals { IfOk result (λ out. (output_of out).refusals
        ≡ opening_refusals (context_of scope.now) spec.now ++ table_refusals (context_of scope.now) (map entry_of table.now)) }
{
    let mut refusals = Vec::new(alloc);
    add_opening_refusals(alloc, scope, spec, &mut refusals)?;
    add_table_refusals(alloc, scope, table, &mut refusals)?;
    Ok(Output {
        code: places(alloc, table.len())?,
        refusals,
    })
}

// The names of processes.
fn names_of<'a>(alloc: Global, table: &[Entry<'a>]) -> Result<Vec<&'a Name>, Memory>
    ensures { IfOk result (λ names. map (λ n. n.now) names.items ≡ map (λ e. e.process.name.text) (map entry_of table.now)) }
{
    let mut names = Vec::new(alloc);
    for entry in table {
        names.push(&entry.process.name.text)?;
    }
    Ok(names)
}

// Refuses calls of processes that call themselves at once.
fn add_cycles(
    alloc: Global,
    table: &[Entry<'_>],
    calls: &[Vec<Call>],
    refusals: &mut Vec<Refusal>,
) -> Result<(), Memory>
    ensures { OnOk result (refusals.new.items ≡ refusals.old.items ++ unguarded_refusals
        (map (λ e. e.process.name.text) (map entry_of table.now)) (map (λ calls. calls.items) calls.now)) }
{
    let names = names_of(alloc, table)?;
    add_unguarded(alloc, &names, calls, refusals)
}

// What a specification comes to over its data in this setting. Given are how it is declared to end, if that is known, places for the nodes
// of processes, and what is refused of headings.
fn judge_behaviour<'a>(
    alloc: Global,
    setting: &Setting<'a, '_>,
    spec: &'a Spec,
    algebra: &DataSpec,
    ends: &Option<Functionality>,
    site: &mut Site<'a>,
    mut out: Output,
) -> Result<Judged, Memory>
    requires setting { setting_of site.old.context setting.now ≡ compiled.setting (theory_of algebra.now) spec.now }
    requires headings { HasHeadings (setting_of site.old.context setting.now) setting.now }
    requires ends { option_map functionality_of ends.now ≡ declared (data_context (theory_of algebra.now)) spec.now.functionality }
    requires places { length (output_of out).code ≡ length (entries spec.now) }
    requires refusals { (output_of out).refusals ≡ opening_refusals (data_context (theory_of algebra.now)) spec.now
        ++ table_refusals (data_context (theory_of algebra.now)) (entries spec.now) }
    ensures { IfOk result (λ j. IsJudged (theory_of algebra.now) spec.now (option_map program_of j.program) j.refusals.items) }
{
    let bodies = read_bodies(alloc, setting, site, &mut out)?;
    let start = read_start(alloc, setting, spec, ends, site, &mut out)?;
    add_cycles(alloc, setting.table, &bodies.calls, &mut out.refusals)?;
    let processes = counted(setting.table.len())?;
    let Output { code, refusals } = out;
    let program = program_if(alloc, spec, algebra, bodies.nodes, processes, code, start)?;
    Ok(Judged { program, refusals })
}

// What a specification comes to over its data in this setting, with these sorts and operations in scope.
fn judge_in<'a>(
    alloc: Global,
    setting: &Setting<'a, '_>,
    spec: &'a Spec,
    algebra: &DataSpec,
    scope: Scope,
) -> Result<Judged, Memory>
    requires context { context_of scope ≡ data_context (theory_of algebra.now) }
    requires setting { setting_of (context_of scope) setting.now ≡ compiled.setting (theory_of algebra.now) spec.now }
    requires headings { HasHeadings (setting_of (context_of scope) setting.now) setting.now }
    requires few_operations { vec_len scope.signature.ops < 2 ^ 32 }
    requires few_sorts { vec_len scope.signature.sorts < 2 ^ 32 - 1 }
    ensures { IfOk result (λ j. IsJudged (theory_of algebra.now) spec.now (option_map program_of j.program) j.refusals.items) }
{
    let out = opened(alloc, &scope, spec, setting.table)?;
    let ends = declared(alloc, &scope, &spec.functionality)?;
    let mut site = data_site(alloc, scope)?;
    judge_behaviour(alloc, setting, spec, algebra, &ends, &mut site, out)
}

/// What a specification comes to over its data, and everything that is refused of it: in headings, of bodies and of the specification's own
/// behaviour, and calls of processes that call themselves at once.
pub fn judge(alloc: Global, spec: &Spec, algebra: &DataSpec) -> Result<Judged, Memory>
    ensures { IfOk result (λ j. IsJudged (theory_of algebra.now) spec.now (option_map program_of j.program) j.refusals.items) }
{
    let gates = counted(gates_in(&spec.gates).len())?;
    let table = processes(alloc, spec)?;
    let scope = data_scope(alloc, algebra)?;
    let headings = headings(alloc, &scope, &table)?;
    let parts = NamedParts::of(alloc, &table, &headings)?;
    let setting = Setting {
        gates,
        table: &table,
        headings: &headings,
        parts: &parts,
    };
    judge_in(alloc, &setting, spec, algebra, scope)
}
