// The type of what is told of a module's grammar text joined to the robot's. No function stands here: specs/ has the definitions, and
// the crate joining has the code.

#![tactic(auto)]

// Where a name stands: its start and its length.
#[derive(Drop)]
pub enum Place {
    Robot(usize, usize),
    Module(usize, usize),
    Neither,
}
