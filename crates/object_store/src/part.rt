//! What is read of an item, and what is written to it.

/// What is read of an item of a container.
#[derive(Clone, Copy, Debug, PartialEq, Eq)]
pub enum Reading {
    /// The value of an item of a list.
    Contents,
    /// The key of an item of a dictionary.
    Key,
    /// The priority of an item of a queue.
    Priority,
    /// The information of an item of a dictionary or a queue.
    Information,
}

/// What is written to an item of a container.
#[derive(Clone, Copy, Debug, PartialEq, Eq)]
pub enum Writing {
    /// The value of an item of a list.
    Contents,
    /// The information of an item of a dictionary or a queue.
    Information,
}
