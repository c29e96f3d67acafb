// The laws of installed images and of programs that are installed.
ghost use Rattle.sil_install.specs.Law.{LawOfBuiltPrograms, LawOfInstalledImages};

/// An image whose code carries out each statement of a program behaves as the program.
pub fn law_of_installed_images()
    ensures { LawOfInstalledImages }
{}

/// A program of macros that are installed so far is one that is expanded.
pub fn law_of_built_programs()
    ensures { LawOfBuiltPrograms }
{}
