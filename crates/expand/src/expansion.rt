// Expansions: of the behaviours with numbers of the code, with values for their variables, and of those that origins stand for.

ghost use Rattle.std.specs.Prelude.{ℕ, ◌≡◌, IfOk, IfErr, map};
ghost use Rattle.spec_core.specs.Code.{relabelling_of};
ghost use Rattle.spec_core.specs.Ready.{IsReady};
ghost use Rattle.rule_model.specs.Substitution.{put};
ghost use Rattle.rule_origins.specs.Parts.{behaviour_at};
ghost use Rattle.rule_origins.specs.Values.{assignment};
ghost use Rattle.symbolic_rules.specs.Windows.{AreWindows};
ghost use Rattle.sort_windows.specs.Found.{AreBySorts};
ghost use Rattle.symbolic_plans.specs.OpenPlans.{open_plan_of};
ghost use Rattle.node_trees.specs.Origins.{meaning, relabelled_by, scoped, source_of};
ghost use Rattle.node_values.specs.Prepared.{program_in};
ghost use Rattle.expand.specs.Expansions.{AskReached, IsExpansion, IsStop, IsStopAt};
ghost use Rattle.symbolic_rules.specs.Tables.{windows_in};

use crate::relabelled::expand_relabelled;
use node_trees::origin::Origin;
use node_values::Prepared;
use node_values::scope::known;
use node_values::stop::Stop;
use run_settings::settings::Settings;
use sort_windows::windows;
use spec_core::items::Gate;
use spec_core::memory::Memory;
use spec_core::value::Value;
use spec_core::window::Window;
use std::alloc::Global;
use symbolic_plans::composite::OpenComposite;

/// What a behaviour can take part in: its composites, in order, and the first values of each sort.
#[derive(Drop)]
pub struct Expansion {
    pub composites: Vec<OpenComposite>,
    pub windows: Vec<Window>,
}

// The composites of the behaviour with this number of the code, with values for its variables, under a relabelling; an empty one is none.
fn composites_at(
    alloc: Global,
    prepared: &Prepared,
    windows: &[Window],
    node: u32,
    values: &[(u32, Value)],
    pairs: &[(Gate, Gate)],
    budget: u64,
) -> Result<Vec<OpenComposite>, Stop>
    requires ready { IsReady (program_in prepared.now) }
    requires rows { (k : ℕ) × AreBySorts (program_in prepared.now).theory k windows.now }
    ensures expansion { IfOk result (λ all. IsExpansion (program_in prepared.now) (windows_in windows.now)
        (relabelled_by (map relabelling_of pairs.now) (scoped (program_in prepared.now) node values.now)) (map open_plan_of all.items)) }
    ensures asked { IfOk result (λ all. AskReached (program_in prepared.now) (windows_in windows.now)
        (assignment (program_in prepared.now).theory values.now)
        (relabelled_by (map relabelling_of pairs.now) (behaviour_at (program_in prepared.now) node))
        (relabelled_by (map relabelling_of pairs.now) (scoped (program_in prepared.now) node values.now)) (map open_plan_of all.items)) }
    ensures stop { IfErr result (IsStop (program_in prepared.now) (windows_in windows.now)
        (relabelled_by (map relabelling_of pairs.now) (scoped (program_in prepared.now) node values.now)) budget) }
{
    let scope = known(alloc, values, Vec::new(alloc))?;
    let calls = prepared.checked.code.len();
    match expand_relabelled(alloc, prepared, windows, &scope, pairs, node, calls, budget) {
        Err(stop) => Err(stop),
        Ok(x) => Ok(x.composites),
    }
}

/// The composites of the behaviour that an origin stands for, down to the first actions, in order, where the values of the windows are
/// chosen. A value is found with at most `budget` uses of equations. It recurs as deep as constructs, calls and terms nest.
pub fn expand_within(
    alloc: Global,
    prepared: &Prepared,
    windows: &[Window],
    origin: &Origin,
    budget: u64,
) -> Result<Vec<OpenComposite>, Stop>
    requires ready { IsReady (program_in prepared.now) }
    requires rows { (k : ℕ) × AreBySorts (program_in prepared.now).theory k windows.now }
    ensures expansion { IfOk result (λ all. IsExpansion (program_in prepared.now) (windows_in windows.now)
        (meaning (program_in prepared.now) (source_of origin.now)) (map open_plan_of all.items)) }
    ensures asked { IfOk result (λ all. AskReached (program_in prepared.now) (windows_in windows.now)
        (assignment (program_in prepared.now).theory origin.now.values.items)
        (relabelled_by (map relabelling_of origin.now.relabel.items) (behaviour_at (program_in prepared.now) origin.now.node))
        (meaning (program_in prepared.now) (source_of origin.now)) (map open_plan_of all.items)) }
    ensures stop { IfErr result (IsStop (program_in prepared.now) (windows_in windows.now)
        (meaning (program_in prepared.now) (source_of origin.now)) budget) }
{
    composites_at(
        alloc,
        prepared,
        windows,
        origin.node,
        &origin.values,
        &origin.relabel,
        budget,
    )
}

// The same with the first values of each sort.
#[tactic(auto, using(crate::proofs::Memory::memory))]
fn expand_source(
    alloc: Global,
    prepared: &Prepared,
    node: u32,
    values: &[(u32, Value)],
    pairs: &[(Gate, Gate)],
    settings: &Settings,
) -> Result<Expansion, Stop>
    requires ready { IsReady (program_in prepared.now) }
    ensures windows { IfOk result (λ x.
        AreWindows (program_in prepared.now).theory settings.now.values (windows_in x.windows.items)) }
    ensures expansion { IfOk result (λ x. IsExpansion (program_in prepared.now) (windows_in x.windows.items)
        (relabelled_by (map relabelling_of pairs.now) (scoped (program_in prepared.now) node values.now))
        (map open_plan_of x.composites.items)) }
    ensures stop { IfErr result (IsStopAt (program_in prepared.now) settings.now.values
        (relabelled_by (map relabelling_of pairs.now) (scoped (program_in prepared.now) node values.now)) settings.now.budget) }
{
    let windows = windows(alloc, &prepared.checked.algebra, settings.values)?;
    match composites_at(
        alloc,
        prepared,
        &windows,
        node,
        values,
        pairs,
        settings.budget,
    ) {
        Err(stop) => Err(stop),
        Ok(composites) => Ok(Expansion {
            composites,
            windows,
        }),
    }
}

/// The composites of the behaviour with this number of the code, with values for its variables, of which the later ones come first, down
/// to the first actions. A value is found with at most so many uses of equations as the settings say, and so many first values of a sort
/// are chosen. It recurs as deep as constructs, calls and terms nest.
pub fn expand_code(
    alloc: Global,
    prepared: &Prepared,
    node: u32,
    values: &[(u32, Value)],
    settings: &Settings,
) -> Result<Expansion, Stop>
    requires ready { IsReady (program_in prepared.now) }
    ensures windows { IfOk result (λ x.
        AreWindows (program_in prepared.now).theory settings.now.values (windows_in x.windows.items)) }
    ensures expansion { IfOk result (λ x. IsExpansion (program_in prepared.now) (windows_in x.windows.items)
        (put (assignment (program_in prepared.now).theory values.now) (behaviour_at (program_in prepared.now) node))
        (map open_plan_of x.composites.items)) }
    ensures stop { IfErr result (IsStopAt (program_in prepared.now) settings.now.values
        (put (assignment (program_in prepared.now).theory values.now) (behaviour_at (program_in prepared.now) node)) settings.now.budget) }
{
    expand_source(alloc, prepared, node, values, &[], settings)
}

/// The composites of the behaviour that an origin stands for, down to the first actions, as `expand_code` has them. It recurs as deep as
/// constructs, calls and terms nest.
pub fn expand(
    alloc: Global,
    prepared: &Prepared,
    origin: &Origin,
    settings: &Settings,
) -> Result<Expansion, Stop>
    requires ready { IsReady (program_in prepared.now) }
    ensures windows { IfOk result (λ x.
        AreWindows (program_in prepared.now).theory settings.now.values (windows_in x.windows.items)) }
    ensures expansion { IfOk result (λ x. IsExpansion (program_in prepared.now) (windows_in x.windows.items)
        (meaning (program_in prepared.now) (source_of origin.now)) (map open_plan_of x.composites.items)) }
    ensures stop { IfErr result (IsStopAt (program_in prepared.now) settings.now.values
        (meaning (program_in prepared.now) (source_of origin.now)) settings.now.budget) }
{
    expand_source(
        alloc,
        prepared,
        origin.node,
        &origin.values,
        &origin.relabel,
        settings,
    )
}
