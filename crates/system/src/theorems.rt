// Laws of the residue system.
ghost use Rattle.system.specs.Hidden.{OneIsHidden, Figure};

// Three residues, each below its modulus, are left by one number below the product of the moduli and by no other: the hidden one.
pub fn residues_hide_one_number()
    ensures { OneIsHidden }
{}

// The moduli 3, 5 and 7 are lawful, and in their system the residues 2, 3 and 2 hide 23.
pub fn figure_stands()
    ensures { Figure }
{}
