//! What holds of all that is found, as facts on the definitions. The functions do nothing: each is the proof of its contract.

ghost use Rattle.std.specs.Prelude.{◌≡◌, ℕ, false, List};
ghost use Rattle.lsm_key.specs.Sets.{is_among};
ghost use Rattle.lsm_edit.specs.declared.file.FileMeta.{FileMeta};
ghost use Rattle.lsm_edit.specs.Log.{BadLog};
ghost use Rattle.lsm_edit.specs.Version.{VersionValue};
ghost use Rattle.lsm_vault.specs.Stored.{TableMap, VaultValue};
ghost use Rattle.lsm_versions.specs.declared.error.OpenError.TheVariants as opening;
ghost use Rattle.lsm_versions.specs.Manifest.{Folds};
ghost use Rattle.lsm_versions.specs.Opening.{HaveTables, LacksTable, OpenRefuses};
ghost use Rattle.lsm_inspect.specs.declared.damage.Damage.{Damage};
ghost use Rattle.lsm_inspect.specs.declared.damage.LogDamage.{LogDamage};
ghost use Rattle.lsm_inspect.specs.Check.{IsDamage};
ghost use Rattle.lsm_inspect.specs.Log.{IsLogDamage};

/// What is wrong with the table of a file whose number no damaged one has is a reason to refuse an opening.
pub fn damage_is_no_false_alarm()
    ensures { (kept : TableMap) (damaged : List ℕ) (f : FileMeta) (d : Damage) → is_among damaged f.number ≡ false → IsDamage kept damaged f d → LacksTable kept f }
{}

/// What is wrong with a log over the flushed sequence makes it bad, and so is a reason to refuse an opening.
pub fn log_damage_is_no_false_alarm()
    ensures { (flushed : ℕ) (texts : List (List ℕ)) (d : LogDamage) → IsLogDamage flushed texts d → BadLog flushed texts }
{}

/// Edits that make a version, tables that are as its records say and a log that is good over it are no reason to refuse an opening.
pub fn what_is_whole_is_not_refused()
    ensures manifest { (vault : VaultValue) (v : VersionValue) → Folds vault.edits v → OpenRefuses vault opening.BadManifest → ⊥ }
    ensures tables { (vault : VaultValue) (v : VersionValue) → Folds vault.edits v → HaveTables vault.tables v.files → OpenRefuses vault opening.MissingTable → ⊥ }
    ensures log { (vault : VaultValue) (v : VersionValue) → Folds vault.edits v → (BadLog v.flushed vault.log → ⊥) → OpenRefuses vault opening.BadLog → ⊥ }
{}
