// Parts without statements in them within a class: of format strings, of imports, of functions.
ghost use Rattle.std.specs.Prelude.{◌≡◌, ◌∷◌, [], IfOk, map};
ghost use Rattle.py_tree.specs.Programs.{import_of, parameter_of};
ghost use Rattle.private_names.specs.Names.{mangled_name};
ghost use Rattle.private_names.specs.Expressions.{mangled_piece};
ghost use Rattle.private_names.specs.Statements.{mangled_path, mangled_import, mangled_parameter};

use crate::class::Class;
use amh_host::{Items, NoMemory};
use py_tree::{Imported, Name, Param, Piece, Pieces};

impl Class {
    /// The parts of a format string.
    pub fn pieces(&self, pieces: &Pieces) -> Result<Pieces, NoMemory>
        ensures { IfOk result (λ made. made ≡ map (mangled_piece self.now.name) pieces.now) }
    {
        let mut made = Items::new(self.alloc);
        for piece in pieces.as_slice() {
            made.push(self.piece(piece)?)?;
        }
        Pieces::new(self.alloc, made)
    }

    fn piece(&self, piece: &Piece) -> Result<Piece, NoMemory>
        ensures { IfOk result (λ made. made ≡ mangled_piece self.now.name piece.now) }
    {
        match piece {
            Piece::Text(text) => Ok(Piece::Text(text.share()?)),
            Piece::Hole(name) => Ok(Piece::Hole(self.name(name)?)),
        }
    }

    /// The names of a module.
    pub fn path(&self, path: &Vec<Name>) -> Result<Vec<Name>, NoMemory>
        ensures { IfOk result (λ made. made.items ≡ mangled_path self.now.name path.now.items) }
    {
        match path.as_slice() {
            [name] => self.alone(name),
            all => self.names(all),
        }
    }

    fn alone(&self, name: &Name) -> Result<Vec<Name>, NoMemory>
        ensures { IfOk result (λ made. made.items ≡ mangled_name self.now.name name.now ∷ []) }
    {
        let mut made = Vec::new(self.alloc);
        made.push(self.name(name)?)?;
        Ok(made)
    }

    /// The same names.
    pub fn names(&self, all: &[Name]) -> Result<Vec<Name>, NoMemory>
        ensures { IfOk result (λ made. made.items ≡ all.now) }
    {
        let mut made = Vec::new(self.alloc);
        for name in all {
            made.push(name.share()?)?;
        }
        Ok(made)
    }

    /// The names that are imported.
    pub fn imports(&self, all: &Vec<Imported>) -> Result<Vec<Imported>, NoMemory>
        ensures { IfOk result (λ made. map import_of made.items ≡ map (mangled_import self.now.name) (map import_of all.now.items)) }
    {
        let mut made = Vec::new(self.alloc);
        for one in all.as_slice() {
            made.push(self.import(one)?)?;
        }
        Ok(made)
    }

    fn import(&self, one: &Imported) -> Result<Imported, NoMemory>
        ensures { IfOk result (λ made. import_of made ≡ mangled_import self.now.name (import_of one.now)) }
    {
        Ok(Imported {
            place: one.place,
            name: self.name(&one.name)?,
            bound: self.optional_name(&one.bound)?,
        })
    }

    /// The parameters of a function.
    pub fn params(&self, all: &Vec<Param>) -> Result<Vec<Param>, NoMemory>
        ensures { IfOk result (λ made. map parameter_of made.items ≡ map (mangled_parameter self.now.name) (map parameter_of all.now.items)) }
    {
        let mut made = Vec::new(self.alloc);
        for param in all.as_slice() {
            made.push(self.param(param)?)?;
        }
        Ok(made)
    }

    fn param(&self, param: &Param) -> Result<Param, NoMemory>
        ensures { IfOk result (λ made. parameter_of made ≡ mangled_parameter self.now.name (parameter_of param.now)) }
    {
        match param {
            Param::Named {
                place,
                name,
                annotation,
                default,
            } => Ok(Param::Named {
                place: *place,
                name: self.name(name)?,
                annotation: self.optional(annotation)?,
                default: self.optional(default)?,
            }),
            Param::Star(place) => Ok(Param::Star(*place)),
        }
    }
}
