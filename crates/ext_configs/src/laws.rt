//! Laws of configuration files, each the contract of a function that does nothing: what holds of every base.
ghost use Rattle.ext_configs.specs.Laws.{ConfigsAreFiles, OneComponentList, OneConfigList};

use ext_find::Measured;

/// There is one list of configuration files: names and contents follow from the base, the component and the kind.
pub fn one_config_list<C: Measured>()
    ensures { OneConfigList C.size }
{}

/// There is one list of components: it follows from the base.
pub fn one_component_list<C>()
    ensures { OneComponentList C }
{}

/// The content of a configuration file is that of a file of the base.
pub fn configs_are_files<C: Measured>()
    ensures { ConfigsAreFiles C.size }
{}
