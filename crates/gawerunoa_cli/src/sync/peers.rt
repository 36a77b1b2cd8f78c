//! The peers that are asked.

use crate::fault::Fault;
use crate::sync::fault::{Broken, Dropped, SyncFault, Why};
use crate::sync::message::{receive, send};
use std::alloc::{AllocError, Global};
use std::collections::VecDeque;
use std::io::{Read, Write};

/// A peer, which is not trusted.
#[derive(Drop)]
pub(crate) struct Peer<'a, T> {
    /// What it is called.
    pub name: &'a str,
    /// Its files; none where standard output is for its requests, and standard input for its pages.
    pub files: Option<Ends<T>>,
    /// How many of its pages were taken.
    pub taken: u64,
}

/// The files of a peer.
#[derive(Drop)]
pub(crate) struct Ends<T> {
    /// Where requests to it go.
    pub requests: T,
    /// Where its pages come from.
    pub pages: T,
}

impl<'a, T: Read + Write> Peer<'a, T> {
    /// Returns the peer that is called `name`, of which no page was taken.
    pub fn new(name: &'a str, files: Option<Ends<T>>) -> Self {
        Peer {
            name,
            files,
            taken: 0,
        }
    }

    /// Sends `request`, and puts what comes in the place of `page`: at most `most` bytes.
    pub fn ask<I: Read, O: Write>(
        &mut self,
        input: &mut I,
        output: &mut O,
        request: &[u8],
        most: u64,
        page: &mut Vec<u8>,
    ) -> Result<(), Broken> {
        match &mut self.files {
            Some(files) => {
                send(&mut files.requests, request)?;
                receive(&mut files.pages, most, page)
            }
            None => {
                send(output, request)?;
                receive(input, most, page)
            }
        }
    }

    /// Returns who is asked no more, and `why`.
    pub fn dropped(&self, why: Why) -> Dropped<'a> {
        Dropped {
            name: self.name,
            page: self.taken.saturating_add(1),
            why,
        }
    }
}

/// The peers that are asked in turn, and those that are asked no more.
#[derive(Drop)]
pub(crate) struct Peers<'a, T> {
    asked: VecDeque<Peer<'a, T>>,
    dropped: Vec<Dropped<'a>>,
}

impl<'a, T: Drop> Peers<'a, T> {
    /// Returns no peers. Allocates nothing.
    pub fn new(alloc: Global) -> Self {
        Peers {
            asked: VecDeque::new(alloc),
            dropped: Vec::new(alloc),
        }
    }

    /// Adds `peer` behind those that are asked.
    pub fn add(&mut self, peer: Peer<'a, T>) -> Result<(), AllocError> {
        self.asked.push_back(peer)?;
        Ok(())
    }

    /// Takes the peer out that is to be asked next; none if none is left.
    pub fn next(&mut self) -> Option<Peer<'a, T>> {
        self.asked.pop_front()
    }

    /// Notes who is asked no more. Fails where that was the last one.
    pub fn drop_out(&mut self, dropped: Dropped<'a>) -> Result<(), Fault<'a>> {
        if self.asked.is_empty() {
            return Err(Fault::Sync(SyncFault::Alone(dropped)));
        }
        self.dropped.push(dropped)?;
        Ok(())
    }

    /// Returns a line for each peer: how many of its pages were taken, and then of each that is asked no more why.
    pub fn told(&self, alloc: Global) -> Result<String, AllocError> {
        let mut text = String::new(alloc);
        for peer in &self.asked {
            let (name, taken) = (peer.name, peer.taken);
            let line = format!(in alloc; "peer: {name}: {taken} pages taken\n")?;
            text.push_str(line.as_str())?;
        }
        for dropped in &self.dropped {
            let line = format!(in alloc; "refused: {dropped}\n")?;
            text.push_str(line.as_str())?;
        }
        Ok(text)
    }
}
