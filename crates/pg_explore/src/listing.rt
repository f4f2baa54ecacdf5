//! The steps that can be made at a moment.

ghost use Rattle.std.specs.Prelude.{◌≡◌, ◌≢◌, ◌<◌, ◌↔◌, [], true, false, IsTrue, IfOk, OnOk, length};
ghost use Rattle.std.specs.List.{Contains};
ghost use Rattle.pg_world_packets.specs.PgStep.Machines.Places.{is_pair};
ghost use Rattle.pg_world_packets.specs.PgStep.declared.command.OpId.{OpId};
ghost use Rattle.pg_world_packets.specs.FrameWorlds.{lost_of, traffic_of};
ghost use Rattle.pg_world_packets.specs.Losing.{seen_at};
ghost use Rattle.pg_world_packets.specs.PgWorldAccount.Losses.{is_lost};
ghost use Rattle.pg_world_packets.specs.Views.{on_the_way};
ghost use Rattle.pg_explore.specs.Listings.{AddsOpen, IsAtNode, IsListed, IsMoveOfPeer, IsOfPeers};
ghost use Rattle.pg_explore.specs.Listings.{IsPlannedOf, IsRetryOf, IsThere, MayRetry, sight_waits_at};
ghost use Rattle.pg_explore.specs.Moments.{IsSized, sight_of};

use crate::losses::add_losses;
use crate::moment::Moment;
use crate::moves::{Limits, Move};
use crate::plan::{Plan, Planned};
use crate::strands::planned_next;
use pg_world_packets::OpId;
use std::alloc::{AllocError, Global};

/// The steps that can be made at a moment.
///
/// Errors: `AllocError`.
pub(crate) fn moves_of(
    alloc: Global,
    moment: &Moment,
    plans: &[Plan],
    limits: Limits,
) -> Result<Vec<Move>, AllocError>
    requires { IsSized moment.now }
    ensures { IfOk result (λ moves. IsListed plans.now limits.retries (sight_of moment.now) moves.items) }
{
    let mut moves = Vec::new(alloc);
    for node in 0..moment.strands.len() {
        if !moment.world.is_lost(node) {
            add_moves(&mut moves, alloc, moment, plans, limits, node)?;
        }
    }
    Ok(moves)
}

/// Adds those of a node that is not lost.
///
/// Errors: `AllocError`.
fn add_moves(
    moves: &mut Vec<Move>,
    alloc: Global,
    moment: &Moment,
    plans: &[Plan],
    limits: Limits,
    node: usize,
) -> Result<(), AllocError>
    requires sized { IsSized moment.now }
    requires there { IsThere (sight_of moment.now) node }
    ensures { OnOk result (AddsOpen plans.now limits.retries (sight_of moment.now) (IsAtNode node) moves.old.items moves.new.items) }
{
    add_peers(moves, moment, plans, limits, node)?;
    add_planned(moves, alloc, moment, plans, limits, node)?;
    add_retries(moves, moment, plans, limits, node)?;
    Ok(())
}

/// Adds the packets that a node can take, and the losses that it can see.
///
/// Errors: `AllocError`.
fn add_peers(
    moves: &mut Vec<Move>,
    moment: &Moment,
    plans: &[Plan],
    limits: Limits,
    node: usize,
) -> Result<(), AllocError>
    requires sized { IsSized moment.now }
    requires there { IsThere (sight_of moment.now) node }
    ensures { OnOk result (AddsOpen plans.now limits.retries (sight_of moment.now) (IsOfPeers node) moves.old.items moves.new.items) }
{
    for peer in 0..moment.strands.len() {
        if peer != node {
            add_peer(moves, moment, plans, limits, node, peer)?;
        }
    }
    Ok(())
}

/// Adds the packet that a node can take of a peer, or else the loss of it that the node can see.
///
/// Errors: `AllocError`.
fn add_peer(
    moves: &mut Vec<Move>,
    moment: &Moment,
    plans: &[Plan],
    limits: Limits,
    node: usize,
    peer: usize,
) -> Result<(), AllocError>
    requires sized { IsSized moment.now }
    requires there { IsThere (sight_of moment.now) node }
    requires pair { is_pair (length moment.now.strands.items) peer node ≡ true }
    ensures { OnOk result (AddsOpen plans.now limits.retries (sight_of moment.now) (IsMoveOfPeer node peer) moves.old.items moves.new.items) }
{
    if has_packet(moment, node, peer) {
        moves.push(Move::Take { node, peer })?;
    } else if can_see(moment, node, peer) {
        moves.push(Move::SeeLoss { node, peer })?;
    }
    Ok(())
}

/// Whether a packet is on the way from a peer. It takes no memory.
fn has_packet(moment: &Moment, node: usize, peer: usize) -> bool
    requires sized { IsSized moment.now }
    requires pair { is_pair (length moment.now.strands.items) peer node ≡ true }
    ensures { IsTrue result ↔ (on_the_way (traffic_of moment.now.world) peer node ≢ []) }
{
    match moment.world.on_way(peer, node) {
        Some(packets) => !packets.is_empty(),
        None => false,
    }
}

/// Whether a peer is lost, and the node has not seen it. It takes no memory.
fn can_see(moment: &Moment, node: usize, peer: usize) -> bool
    requires sized { IsSized moment.now }
    requires pair { is_pair (length moment.now.strands.items) peer node ≡ true }
    ensures { IsTrue result ↔ ((is_lost (lost_of moment.now.world) peer ≡ true) × (seen_at (traffic_of moment.now.world).nodes node peer ≡ false)) }
{
    moment.world.is_lost(peer) && !has_seen(moment, node, peer)
}

/// Whether a node has seen the loss of a peer. It takes no memory.
fn has_seen(moment: &Moment, node: usize, peer: usize) -> bool
    requires sized { IsSized moment.now }
    requires pair { is_pair (length moment.now.strands.items) peer node ≡ true }
    ensures { result ≡ seen_at (traffic_of moment.now.world).nodes node peer }
{
    let place = if peer < node { peer } else { peer - 1 };
    match moment.world.node(node) {
        Some(state) => state.is_lost(place),
        None => false,
    }
}

/// Adds what is planned next of a node.
///
/// Errors: `AllocError`.
fn add_planned(
    moves: &mut Vec<Move>,
    alloc: Global,
    moment: &Moment,
    plans: &[Plan],
    limits: Limits,
    node: usize,
) -> Result<(), AllocError>
    requires sized { IsSized moment.now }
    requires there { IsThere (sight_of moment.now) node }
    ensures { OnOk result (AddsOpen plans.now limits.retries (sight_of moment.now) (IsPlannedOf node) moves.old.items moves.new.items) }
{
    match planned_next(plans, moment.strands.as_slice(), node) {
        Some(Planned::Step(_)) => {
            moves.push(Move::Next { node })?;
            Ok(())
        }
        Some(Planned::Loss) => {
            add_losses(moves, alloc, moment, node)?;
            Ok(())
        }
        None => Ok(()),
    }
}

/// Adds the commands that a node can try again.
///
/// Errors: `AllocError`.
fn add_retries(
    moves: &mut Vec<Move>,
    moment: &Moment,
    plans: &[Plan],
    limits: Limits,
    node: usize,
) -> Result<(), AllocError>
    requires sized { IsSized moment.now }
    requires there { IsThere (sight_of moment.now) node }
    ensures { OnOk result (AddsOpen plans.now limits.retries (sight_of moment.now) (IsRetryOf node) moves.old.items moves.new.items) }
{
    let ops = waiting_at(moment, node)?;
    for op in ops.as_slice() {
        if may_retry(moment, limits, node, op.number) {
            moves.push(Move::Retry { node, op: *op })?;
        }
    }
    Ok(())
}

/// The commands of a node that wait.
///
/// Errors: `AllocError`.
fn waiting_at(moment: &Moment, node: usize) -> Result<Vec<OpId>, AllocError>
    requires sized { IsSized moment.now }
    requires there { node < length moment.now.strands.items }
    ensures { IfOk result (λ ops. (op : OpId) → Contains ops.items op ↔ (sight_waits_at (traffic_of moment.now.world).nodes node op ≡ true)) }
{
    let state = moment.world.node(node).unwrap();
    state.waiting()
}

/// Whether a command may be tried again. It takes no memory.
fn may_retry(moment: &Moment, limits: Limits, node: usize, number: u32) -> bool
    requires { node < length moment.now.strands.items }
    ensures { IsTrue result ↔ MayRetry limits.retries (sight_of moment.now).progress node number }
{
    let strand = &moment.strands[node];
    match strand.retries_of(number) {
        Some(made) => made < limits.retries,
        None => false,
    }
}
