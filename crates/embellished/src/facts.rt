ghost use Rattle.std.specs.Prelude.{◌≡◌, IfOk};
ghost use Rattle.std.specs.List.{list_all};
ghost use Rattle.embellished.specs.Facts.{is_space_like, core_below, core_of, but_space_like, facts_as, first_core, only_core, facts_over};

use crate::flow::{LaidOut, flow, shows_each};
use crate::kinds::{is_blank, is_judged_by_all, is_led_by_its_base};
use crate::operator::core_of_operator;
use crate::validity::laid_as;
use fixed_units::{List, Memory};
use math_tree::{Head, Kind};
use op_dictionary::{Form, OpText};
use std::alloc::Global;

/// What an element is among operators.
#[derive(Clone, Copy, Debug, PartialEq, Eq)]
pub struct Facts {
    /// Whether it is space-like (MathML Core 3.2.5).
    pub space_like: bool,
    /// The core operator, where it is an embellished operator (MathML Core 3.2.4.1).
    pub core: Option<Core>,
    /// The kind as which it is laid out: its own, or `Mrow` where it is invalid.
    pub laid: Kind,
}

impl LaidOut for Facts {
    ghost kind = { λ facts. facts.laid };

    fn laid(&self) -> Kind {
        self.laid
    }
}

/// The operator `mo` at the core of an embellished operator: its text and what its attributes say.
#[derive(Clone, Copy, Debug, PartialEq, Eq)]
pub struct Core {
    pub text: OpText,
    pub form: Option<Form>,
    pub stretchy: Option<bool>,
    pub symmetric: Option<bool>,
    pub largeop: Option<bool>,
    pub movablelimits: Option<bool>,
}

/// What an element is, from what all its children are, also those that aren't in flow (MathML Core
/// 3.2.4.1 and 3.2.5).
#[tactic(auto, unfolding(crate::specs::Facts::facts_over))]
pub fn facts_of(alloc: Global, head: &Head, kids: &List<Facts>) -> Result<Facts, Memory>
    ensures { IfOk result (λ facts. facts ≡ facts_over head.now kids.now) }
{
    let kids = kids.as_slice();
    let laid = laid_as(alloc, head.kind, kids)?;
    if shows_each(laid, kids) {
        return facts_as(alloc, head, laid, kids);
    }
    let flow = flow(alloc, laid, kids)?;
    facts_as(alloc, head, laid, flow.as_slice())
}

/// The same of an element that is laid out as this kind, from what its children in flow are.
fn facts_as(alloc: Global, head: &Head, laid: Kind, flow: &[Facts]) -> Result<Facts, Memory>
    ensures { IfOk result (λ facts. facts ≡ facts_as head.now laid flow.now) }
{
    let core = core_of(alloc, head, laid, flow)?;
    let space_like = is_space_like(laid, flow);
    Ok(Facts {
        space_like,
        core,
        laid,
    })
}

/// Whether an element over these children in flow is space-like.
#[tactic(auto, unfolding(crate::specs::Facts::is_space_like))]
fn is_space_like(laid: Kind, flow: &[Facts]) -> bool
    ensures { result ≡ is_space_like laid flow.now }
{
    is_blank(laid) | (is_judged_by_all(laid) & are_space_like(flow))
}

fn are_space_like(flow: &[Facts]) -> bool
    ensures { result ≡ list_all (λ kid. kid.space_like) flow.now }
{
    flow.iter().all(|kid| kid.space_like)
}

fn core_of(alloc: Global, head: &Head, laid: Kind, flow: &[Facts]) -> Result<Option<Core>, Memory>
    ensures { IfOk result (λ core. core ≡ core_of head.now laid flow.now) }
{
    if matches!(laid, Kind::Mo) {
        return Ok(Some(core_of_operator(alloc, head)?));
    }
    Ok(core_below(laid, flow))
}

/// The core that the children lead to: that of the base, or that of the only child that isn't
/// space-like.
#[tactic(auto, unfolding(crate::specs::Facts::core_below))]
fn core_below(laid: Kind, flow: &[Facts]) -> Option<Core>
    ensures { result ≡ core_below laid flow.now }
{
    if is_led_by_its_base(laid) {
        return first_core(flow);
    }
    if !is_judged_by_all(laid) {
        return None;
    }
    only_core(flow)
}

fn first_core(flow: &[Facts]) -> Option<Core>
    ensures { result ≡ first_core flow.now }
{
    match flow.split_first() {
        Some((first, _)) => first.core,
        None => None,
    }
}

/// The core of the only child that isn't space-like.
fn only_core(flow: &[Facts]) -> Option<Core>
    ensures { result ≡ only_core (but_space_like flow.now) }
{
    let mut others = 0usize;
    let mut core = None;
    for kid in flow {
        if !kid.space_like {
            others += 1;
            core = kid.core;
        }
    }
    if others == 1 { core } else { None }
}
