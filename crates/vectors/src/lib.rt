// Base64 beside the vectors of RFC 4648, section 10, and beside a second decoder; readers beside a table of readings.
#![tactic(auto)]

#[cfg(test)]
mod bits;
#[cfg(test)]
mod readings;
#[cfg(test)]
mod tests;
