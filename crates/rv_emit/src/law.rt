// What emitted words do on the emulator.
ghost use Rattle.rv_emit.specs.Emits.{LawOfEmission};

/// An image with the words of a code carries out its operations.
pub fn law_of_emission()
    ensures { LawOfEmission }
{}
