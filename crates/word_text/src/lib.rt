// Words as text: numbers parted by spaces and line ends, and the line that answers them.
#![tactic(auto)]

pub mod answer;
pub mod scan;
