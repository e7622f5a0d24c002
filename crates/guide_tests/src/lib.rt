// Tests of the stack and of the readers of guides.
#![tactic(auto)]

#[cfg(test)]
mod expect;
#[cfg(test)]
mod link_tables;
#[cfg(test)]
mod listings;
#[cfg(test)]
mod stacks;
#[cfg(test)]
mod written;
