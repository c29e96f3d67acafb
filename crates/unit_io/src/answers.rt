// What calls of units answer.
ghost use Rattle.std.specs.Prelude.{◌≡◌};
ghost use Rattle.unit_io.specs.Calls.{units_read};
ghost use Rattle.unit_io.specs.Slots.{units_answer};

/// What a read of a unit answers: the number of bytes that were read, or that it is at its end.
#[derive(Debug, Clone, Copy, PartialEq, Eq)]
pub enum ReadAnswer {
    Rec(usize),
    End,
    Failed,
}

/// What any other call of a unit answers.
#[derive(Debug, Clone, Copy, PartialEq, Eq)]
pub enum UnitAnswer {
    Ok,
    Failed,
    Memory,
}

/// What a read of a numbered unit answers.
#[derive(Debug, Clone, Copy, PartialEq, Eq)]
pub enum UnitsRead {
    Rec(usize),
    End,
    Failed,
    Absent,
}

/// What any other call of a numbered unit answers.
#[derive(Debug, Clone, Copy, PartialEq, Eq)]
pub enum UnitsAnswer {
    Ok,
    Failed,
    Memory,
    Absent,
}

impl From<UnitAnswer> for UnitsAnswer {
    ghost from_gives = { λ a r. r ≡ units_answer a };

    fn from(answer: UnitAnswer) -> UnitsAnswer {
        match answer {
            UnitAnswer::Ok => UnitsAnswer::Ok,
            UnitAnswer::Failed => UnitsAnswer::Failed,
            UnitAnswer::Memory => UnitsAnswer::Memory,
        }
    }
}

impl From<ReadAnswer> for UnitsRead {
    ghost from_gives = { λ a r. r ≡ units_read a };

    fn from(answer: ReadAnswer) -> UnitsRead {
        match answer {
            ReadAnswer::Rec(count) => UnitsRead::Rec(count),
            ReadAnswer::End => UnitsRead::End,
            ReadAnswer::Failed => UnitsRead::Failed,
        }
    }
}
