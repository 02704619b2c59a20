// Tables of automata: what a table says of its automaton, how it is found, and how it is written down.
// Each function's contract is the statement that it stands for.
#![tactic(auto)]

ghost use Rattle.tables.specs.Theorems.{TablesAccept, Canonical, TableOfTable, FewestStates, AtomTables};
ghost use Rattle.tables.specs.Theorems.{Exploring, Refining, Building, ImagesHold, SlotsHold, TextsTell};
ghost use Rattle.tables.specs.Examples.{TableExamples};

pub fn tables_accept()
    ensures { TablesAccept }
{}

pub fn canonical()
    ensures { Canonical }
{}

pub fn table_of_table()
    ensures { TableOfTable }
{}

pub fn fewest_states()
    ensures { FewestStates }
{}

pub fn atom_tables()
    ensures { AtomTables }
{}

pub fn exploring()
    ensures { Exploring }
{}

pub fn refining()
    ensures { Refining }
{}

pub fn building()
    ensures { Building }
{}

pub fn images_hold()
    ensures { ImagesHold }
{}

pub fn slots_hold()
    ensures { SlotsHold }
{}

pub fn texts_tell()
    ensures { TextsTell }
{}

pub fn table_examples()
    ensures { TableExamples }
{}
