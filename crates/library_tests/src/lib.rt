//! Tests of single libraries: calls made again after they were out of memory, what a call through a bound gives, and databases beside a
//! plain map. The other cases of single libraries are lines of `replay`.
#![tactic(auto)]

#[cfg(test)]
mod bounds;
#[cfg(test)]
mod commands;
#[cfg(test)]
mod compacted;
#[cfg(test)]
mod database;
#[cfg(test)]
mod database_calls;
#[cfg(test)]
mod db_ranges;
#[cfg(test)]
mod definitions;
#[cfg(test)]
mod extended;
#[cfg(test)]
mod grafted;
#[cfg(test)]
mod joined;
#[cfg(test)]
mod opened;
#[cfg(test)]
mod pins;
#[cfg(test)]
mod pruned;
#[cfg(test)]
mod pruned_snapshots;
#[cfg(test)]
mod refused;
#[cfg(test)]
mod small;
#[cfg(test)]
mod snapshots;
#[cfg(test)]
mod stops;
#[cfg(test)]
mod sync_calls;
#[cfg(test)]
mod sync_copies;
#[cfg(test)]
mod sync_keyed;
#[cfg(test)]
mod sync_opened;
#[cfg(test)]
mod sync_served;
#[cfg(test)]
mod sync_tails;
