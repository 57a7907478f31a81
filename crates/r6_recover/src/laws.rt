//! The laws of rows: each is the contract of a function that does nothing.

ghost use Rattle.r6_recover.specs.Laws.{FullRowsAreRowsOfData, TwoBlocksAreDetermined, ChangeIsAdded, WrongBlockIsNamed, ClassIsUnique, FullRowsAreConsistent, PiecesAreConsistent};

/// The row of some data is full, and a full row is the row of its data.
pub fn full_row_law()
    ensures { FullRowsAreRowsOfData }
{}

/// Two full rows that agree at all positions but two are equal.
pub fn recovery_law()
    ensures { TwoBlocksAreDetermined }
{}

/// What one changed data block does to the P and Q of a full row.
pub fn change_law()
    ensures { ChangeIsAdded }
{}

/// The class of a full row in which one block was replaced names its position.
pub fn wrong_block_law()
    ensures { WrongBlockIsNamed }
{}

/// A row has one class at most, and is consistent exactly if it is full.
pub fn class_law()
    ensures unique { ClassIsUnique }
    ensures consistent { FullRowsAreConsistent }
{}

/// Rows that are read together, each block of one behind that of the other, are each consistent if they are together.
pub fn piece_law()
    ensures { PiecesAreConsistent }
{}
