//! What is true of the sample at each of its sizes and with every seed: its queries can be drawn, and its graph is
//! within the limit. So `generate` refuses no sample.
#![tactic(auto)]

pub mod laws;
