// The items of encoded values of Part 6: the widths of the fixed types, values that hold no other value, a DataValue's parts, and an
// array's dimensions.
#![tactic(auto)]

pub mod dimensions;
pub mod parts;
pub mod plain;
pub mod quick;
pub mod width;
