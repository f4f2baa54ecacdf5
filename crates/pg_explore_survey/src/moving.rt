//! Which packets have come in a run over bytes.

use crate::hops::Stride;
use pg_explore::Move;
use pg_script::{Packet, packet_len};
use std::alloc::{AllocError, Global};
use std::collections::VecDeque;

/// How many bytes stand before the body of a packet.
const HEAD: usize = 4;

/// By the places of two nodes: how many packets on the way between them have come, and are not taken yet.
#[derive(Drop)]
pub(crate) struct Come {
    rows: Vec<Vec<usize>>,
}

impl Come {
    /// None, between so many nodes.
    ///
    /// Errors: `AllocError`.
    pub(crate) fn none(alloc: Global, count: usize) -> Result<Come, AllocError> {
        let mut rows = Vec::with_capacity(alloc, count)?;
        for _ in 0..count {
            let row = Vec::from_elem(alloc, 0, count)?;
            rows.push(row)?;
        }
        Ok(Come { rows })
    }

    pub(crate) fn between(&self, from: usize, to: usize) -> usize {
        match self.rows.as_slice().get(from) {
            Some(row) => row.get(to).copied().unwrap_or(0),
            None => 0,
        }
    }

    pub(crate) fn set(&mut self, from: usize, to: usize, count: usize) {
        if from < self.rows.len() {
            set_in(self.rows[from].as_mut_slice(), to, count);
        }
    }

    /// A packet that has come is taken.
    pub(crate) fn pass(&mut self, from: usize, to: usize) {
        let come = self.between(from, to);
        self.set(from, to, come.saturating_sub(1));
    }
}

fn set_in(row: &mut [usize], place: usize, count: usize) {
    if place < row.len() {
        row[place] = count;
    }
}

/// Of each of so many nodes, whether it is lost in a run.
///
/// Errors: `AllocError`.
pub(crate) fn lost_in(
    alloc: Global,
    count: usize,
    strides: &[Stride],
) -> Result<Vec<bool>, AllocError> {
    let mut lost = Vec::from_elem(alloc, false, count)?;
    for stride in strides {
        if let Move::Loss { node, keep: _ } = &stride.step {
            if *node < lost.len() {
                lost[*node] = true;
            }
        }
    }
    Ok(lost)
}

/// How many bytes the frame of a packet takes.
pub(crate) fn frame_len(packet: &Packet) -> usize {
    match packet_len(packet) {
        Ok(len) => len.saturating_add(HEAD),
        Err(_) => 0,
    }
}

/// How many bytes the frames of packets take.
pub(crate) fn frames_len(packets: &VecDeque<Packet>) -> usize {
    let mut len = 0usize;
    for packet in packets.iter() {
        len = len.saturating_add(frame_len(packet));
    }
    len
}
