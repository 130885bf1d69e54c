// Whole runs: run sheets beside the lines that the rules give for them.
#![tactic(auto)]

#[cfg(test)]
mod catalogues;
#[cfg(test)]
mod commands;
#[cfg(test)]
mod cuts;
#[cfg(test)]
mod ends;
#[cfg(test)]
mod examples;
#[cfg(test)]
mod full_tables;
#[cfg(test)]
mod plays;
#[cfg(test)]
mod records;
#[cfg(test)]
mod reports;
#[cfg(test)]
mod segments;
#[cfg(test)]
mod sheets;
