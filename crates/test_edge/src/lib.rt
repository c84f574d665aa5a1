//! Tests of the values that all crates share, of sources and sinks, of wire forms, and of the texts of faults and of statuses.
//!
//! No layer of the product depends on this crate. `rd_base_test` has the tests of that crate, and `fault_texts_test` those of the texts.
//! Those of `io_edge` are in `memory_devices_test` and `scripted_devices_test`, by the devices that are read and written
//! (`reads_and_writes`). The tests of wire forms lay bytes out in `runs` and make answers in `answers`: `wire_rules_test` has bytes and
//! the first rule that they break; the other two have answers with their bytes, which their copies have too, with each field at its ends
//! (`wire_ends_test`) and in its place (`wire_places_test`).
#![tactic(auto)]

#[cfg(test)]
mod answers;
#[cfg(test)]
mod fault_texts_test;
#[cfg(test)]
mod memory_devices_test;
#[cfg(test)]
mod rd_base_test;
#[cfg(test)]
mod reads_and_writes;
#[cfg(test)]
mod runs;
#[cfg(test)]
mod scripted_devices_test;
#[cfg(test)]
mod wire_ends_test;
#[cfg(test)]
mod wire_places_test;
#[cfg(test)]
mod wire_rules_test;
