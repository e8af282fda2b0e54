//! The tests of the crates below the engines, but for the push-relabel machine's, by their public calls: texts, numbers,
//! devices, the files that are read and written, slopes, nets, flows and pits, the checker and its certificates, price
//! tables, series of pits and bench tables. They stand apart so that each of these crates is proved once, and not again
//! with its tests. Nothing stands on this crate.
#![tactic(auto)]

#[cfg(test)]
mod bench_tables;
#[cfg(test)]
mod block_models;
#[cfg(test)]
mod certificate_streams;
#[cfg(test)]
mod certificates;
#[cfg(test)]
mod devices;
#[cfg(test)]
mod grids_of_places;
#[cfg(test)]
mod groups;
#[cfg(test)]
mod nets_flows_and_pits;
#[cfg(test)]
mod pits_and_flows;
#[cfg(test)]
mod prec_reading;
#[cfg(test)]
mod prec_writing;
#[cfg(test)]
mod prices_and_series;
#[cfg(test)]
mod scaled_amounts;
#[cfg(test)]
mod settings_texts;
#[cfg(test)]
mod slope_patterns;
#[cfg(test)]
mod texts_and_numbers;
#[cfg(test)]
mod trace_files;
#[cfg(test)]
mod upit_files;
