//! Whole jobs of many lanes on one store, tried beside each other.
#![tactic(auto)]

#[cfg(test)]
mod test_gates;
#[cfg(test)]
mod test_lanes;
#[cfg(test)]
mod tests;
