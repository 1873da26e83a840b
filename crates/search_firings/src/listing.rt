//! The triples of a memo.
ghost use Rattle.std.specs.Prelude.{◌≡◌, ◌++◌, map, IfOk, OnOk};
ghost use Rattle.std.specs.List.{flat_map};
ghost use Rattle.memo_sets.specs.Seen.{member_of, sets_of};
ghost use Rattle.search_model.specs.Listed as spec;
ghost use Rattle.search_model.specs.Listed.{listed};
ghost use Rattle.search_firings.specs.Seen.{firing_of, nodes_of};
ghost use Rattle.search_firings.specs.Steps.{asked_from, of_asked, of_nth};

use crate::bindings::bindings;
use crate::by_set::BySet;
use crate::firing::Firing;
use cal_rel::PlanInfo;
use cal_value::{List, NoMemory};
use memo_sets::{Member, Memo};
use rule_hep::{Reach, Rule};
use std::alloc::Global;

/// What a rule answers once for all members: its place in the list, how far it looks, and how many images there may be.
#[derive(Drop)]
pub struct Asked {
    rule: u32,
    reach: Reach,
    width: u32,
}

fn ask(rule: &Box<dyn Rule>, at: u32, info: &PlanInfo) -> Asked
    ensures at { result.rule ≡ at }
    ensures reach { result.reach ≡ (meaning rule.now).reach }
    ensures width { result.width ≡ (meaning rule.now).width info.now }
{
    Asked {
        rule: at,
        reach: rule.reach(),
        width: rule.width(info),
    }
}

#[tactic(auto, using(crate::proofs::TripleSteps::ask_steps))]
fn ask_each(
    alloc: Global,
    rules: &[Box<dyn Rule>],
    info: &PlanInfo,
) -> Result<List<Asked>, NoMemory>
    ensures { IfOk result (λ all. all
        ≡ asked_from info.now 0 (map (λ b. meaning b) rules.now)) }
{
    let mut all = List::new(alloc);
    for (k, rule) in rules.iter().enumerate() {
        let Ok(at) = u32::try_from(k) else {
            return Err(NoMemory);
        };
        all.push(ask(rule, at, info))?;
    }
    Ok(all)
}

// Adds the triples of one n.
fn add_nth(
    alloc: Global,
    nodes: &BySet,
    member: &Member,
    rule: &Asked,
    nth: u32,
    all: &mut List<Firing>,
) -> Result<(), NoMemory>
    ensures { let trees = spec.bindings (nodes_of nodes.now) rule.now.reach (member_of member.now).tree in
        OnOk result (map firing_of all.new
        ≡ map firing_of all.old ++ of_nth (member_of member.now) rule.now.rule nth trees) }
{
    let trees = bindings(alloc, nodes, rule.reach, &member.rel)?;
    for binding in trees.into_vec() {
        all.push(Firing {
            rule: rule.rule,
            nth,
            binding,
            set: member.set,
        })?;
    }
    Ok(())
}

#[tactic(auto, using(crate::proofs::TripleSteps::nth_steps))]
fn add_of_rule(
    alloc: Global,
    nodes: &BySet,
    member: &Member,
    rule: &Asked,
    all: &mut List<Firing>,
) -> Result<(), NoMemory>
    ensures { OnOk result (map firing_of all.new ≡ map firing_of all.old
        ++ of_asked (nodes_of nodes.now) (member_of member.now) rule.now) }
{
    for nth in 0..rule.width {
        add_nth(alloc, nodes, member, rule, nth, all)?;
    }
    Ok(())
}

fn add_of_member(
    alloc: Global,
    nodes: &BySet,
    member: &Member,
    asked: &[Asked],
    all: &mut List<Firing>,
) -> Result<(), NoMemory>
    ensures { OnOk result (map firing_of all.new ≡ map firing_of all.old
        ++ flat_map (of_asked (nodes_of nodes.now) (member_of member.now)) asked.now) }
{
    for rule in asked {
        add_of_rule(alloc, nodes, member, rule, all)?;
    }
    Ok(())
}

fn of_members(
    alloc: Global,
    nodes: &BySet,
    members: &[Member],
    asked: &[Asked],
) -> Result<List<Firing>, NoMemory>
    ensures { IfOk result (λ all. map firing_of all
        ≡ flat_map (λ m. flat_map (of_asked (nodes_of nodes.now) m) asked.now) (map member_of members.now)) }
{
    let mut all = List::new(alloc);
    for member in members {
        add_of_member(alloc, nodes, member, asked, &mut all)?;
    }
    Ok(all)
}

/// The triples of the memo: each rule of the list, each number below its width, and each binding of a member. They come by
/// members in their order, then by rules in theirs, then by n, then by bindings. A list of more than 2^32 rules is answered
/// like want of memory.
#[tactic(auto, using(crate::proofs::TripleSteps::triple_steps))]
pub fn triples(
    alloc: Global,
    memo: &Memo,
    rules: &[Box<dyn Rule>],
    info: &PlanInfo,
) -> Result<List<Firing>, NoMemory>
    ensures { IfOk result (λ all. map firing_of all
        ≡ listed info.now (map (λ b. meaning b) rules.now) (sets_of memo.now).members) }
{
    let asked = ask_each(alloc, rules, info)?;
    let members = memo.members();
    let nodes = BySet::of(alloc, members.as_slice())?;
    of_members(alloc, &nodes, members.as_slice(), asked.as_slice())
}
